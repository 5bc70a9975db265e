//! Of which steps the events are told.

ghost use Rattle.std.specs.Prelude.{◌≡◌};
ghost use Rattle.folder_questions.specs.TrailEvents.{is_brief};

use recall_outcomes::Ways;

/// Whether one step of a trail is told, not all of it.
pub(crate) fn is_brief(ways: Ways) -> bool
    ensures { result ≡ is_brief ways }
{
    match ways {
        Ways::Trails => false,
        Ways::Steps => true,
    }
}
