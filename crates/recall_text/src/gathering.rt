//! The sites of a script while they are gathered.

ghost use Rattle.std.specs.Prelude.{◌≡◌, IfOk};
ghost use Rattle.recall_text.specs.Answer.{answer_of};
ghost use Rattle.recall_text.specs.Fields.{fields};
ghost use Rattle.recall_text.specs.Gathering.{site_added};
ghost use Rattle.recall_text.specs.State.{gathering};
ghost use Rattle.event_json.specs.Sites.{sites_fault};

use crate::answers::Answer;
use crate::fields::fields;
use crate::outcomes::site_or_fault;
use event_json::Sites;
use std::alloc::{AllocError, Global};

/// Adds a site, or returns why not. The addresses are the fields of a text.
pub fn add_site(
    alloc: Global,
    sites: &mut Sites,
    name: &str,
    addresses: &str,
) -> Result<Answer, AllocError>
    ensures { IfOk result (λ a. (answer_of a, gathering sites.new) ≡ site_added sites.old name.now
        (fields addresses.now) (sites_fault sites.old name.now (fields addresses.now))) }
{
    let addresses = fields(alloc, addresses)?;
    match site_or_fault(sites.add(name, addresses.as_slice()))? {
        Ok(_) => Ok(Answer::Silent),
        Err(fault) => Answer::bad_site(alloc, &fault),
    }
}
