//! Laws of the definitions, each of which a call ensures.
ghost use Rattle.std.specs.Prelude.{◌≡◌};
ghost use Rattle.item_spellings.specs.Laws.{ElementsNameItems, KeysAreRead, LengthsAreThese, LotNumbersAreDecoded, LotsAreSpelled, LotsHaveParts, OtherTextsAreRefused, ReadsWhatIsWritten, ScansSpellItems};

/// The elements that are read of a text are those of which it is written, so a text has no second reading.
pub fn reading_is_writing()
    ensures { ReadsWhatIsWritten }
{}

/// Reading a key is the inverse of printing it.
pub fn keys_are_read()
    ensures { KeysAreRead }
{}

/// Which item elements name, in whatever order they stand and whatever stands beside them.
pub fn elements_name_items()
    ensures { ElementsNameItems }
{}

/// Which item a scanned text spells, and which texts are refused since they are no element strings.
pub fn scans_spell_items()
    ensures spells { ScansSpellItems }
    ensures others { OtherTextsAreRefused }
{}

/// The item that a scan of a lot names is the one that the lot's text spells, as it stands in a document.
pub fn lots_are_spelled()
    ensures { LotsAreSpelled }
{}

/// The parts of a key are the GTIN and the number of the lot that it is the key of, and there are none of any other.
pub fn lots_have_parts()
    ensures { LotsHaveParts }
{}

/// A lot number is the one of which its spelling was made.
pub fn lot_numbers_are_decoded()
    ensures { LotNumbersAreDecoded }
{}

/// How many characters an element string has whose length its first two digits tell, by the standard's table.
pub fn lengths_are_these()
    ensures { LengthsAreThese }
{}
