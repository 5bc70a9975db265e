//! Refusals of commands.

ghost use Rattle.std.specs.Prelude.{◌≡◌, IfOk};
ghost use Rattle.site_folders.specs.Refusals.{IsNoSite, IsRefusal, refusal_of};

use item_spellings::SpellingFault;
use recall_outcomes::{CommandRefusal, Outcome};
use std::alloc::{AllocError, Global};

/// A refusal for one reason.
pub fn refusal(alloc: Global, why: CommandRefusal) -> Result<Outcome, AllocError>
    ensures { IfOk result (IsRefusal why) }
{
    let mut whys = Vec::new(alloc);
    whys.push(why)?;
    Ok(Outcome::Refused(whys))
}

/// The refusal of a text that spells no item.
pub fn unspelled(alloc: Global, fault: SpellingFault) -> Result<Outcome, AllocError>
    ensures { IfOk result (IsRefusal (refusal_of fault)) }
{
    refusal(alloc, refusal_of(fault))
}

/// The reason why a text that spells no item is refused.
pub fn refusal_of(fault: SpellingFault) -> CommandRefusal
    ensures { result ≡ refusal_of fault }
{
    match fault {
        SpellingFault::NoEpc => CommandRefusal::BadEpc,
        SpellingFault::NoKey => CommandRefusal::BadKey,
        SpellingFault::NoScan(fault) => CommandRefusal::BadScan(fault),
    }
}

/// The refusal of a site that isn't listed.
pub fn no_site(alloc: Global, name: &str) -> Result<Outcome, AllocError>
    ensures { IfOk result (IsNoSite name.now) }
{
    let name = String::from_str(alloc, name)?;
    refusal(alloc, CommandRefusal::NoSite(name))
}
