//! Laws of the rows, for proofs of the crates above. Each is a function with an empty body whose contract is the law.

ghost use Rattle.site_rows.specs.Laws.{FirstVersionHasNoPacks, RowsOfRecordsAreGood, RowsTellTheRecord, SignalsKeepItems};
ghost use Rattle.site_rows.specs.TableLaws.{RowsStandForTheRecord};

use site_core::laws::steps_stay_sound;
use site_core::step_laws::a_signal_clears_its_row;

/// Two records that sites may keep are equal where their rows are.
pub fn rows_tell_the_record()
    ensures { RowsTellTheRecord }
{}

/// The first version of the tables has none for packs, so a record has rows under it just where no event is a pack.
pub fn the_first_version_has_no_packs()
    ensures { FirstVersionHasNoPacks }
{}

/// No row of a record that a site may keep is a bad one where it stands in a table of the version, so `state_of`
/// refuses none of them.
pub fn rows_of_a_record_are_good()
    ensures { RowsOfRecordsAreGood }
{}

/// Table by table, what is found in a record that a site may keep has its row, and each row stands for something found.
pub fn rows_stand_for_the_record()
    ensures { RowsStandForTheRecord }
{}

/// A signal leaves a record that a site may keep as one, with the texts of items and sites: messages go, and own
/// recalls end.
pub fn signals_keep_items()
    ensures { SignalsKeepItems }
{
    a_signal_clears_its_row();
    steps_stay_sound();
}
