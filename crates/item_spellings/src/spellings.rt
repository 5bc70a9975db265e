//! An item by one of its spellings.
ghost use Rattle.std.specs.Prelude.{◌≡◌, IfOk};
ghost use Rattle.item_spellings.specs.Keys.{item_reading, reading_by};

use crate::faults::SpellingFault;
use crate::keys::read_key;
use crate::scans::read_scan;
use epc_core::{Epc, EpcFault};
use std::alloc::{AllocError, Global};

/// How a text spells an item.
#[derive(Debug, Clone, Copy, PartialEq, Eq)]
pub enum Spelling {
    /// As an EPC text: an EPC URI, a Digital Link, or any other plain text.
    Epc,
    /// As its printed key.
    Key,
    /// As a scanner gives it.
    Scan,
}

/// A text, and how it is to spell an item.
#[derive(Debug, Clone, Copy)]
pub struct Spelled<'a> {
    pub text: &'a str,
    pub spelling: Spelling,
}

/// The item that a text spells, or why it spells none. It fails only where memory runs out.
#[tactic(auto, unfolding(crate::specs::Keys::item_reading))]
pub fn read_item(
    alloc: Global,
    item: &Spelled<'_>,
) -> Result<Result<Epc, SpellingFault>, AllocError>
    ensures { IfOk result (λ read. read ≡ item_reading item.now) }
{
    match item.spelling {
        Spelling::Epc => epc_of(alloc, item.text),
        Spelling::Key => match read_key(alloc, item.text)? {
            Some(item) => Ok(Ok(item)),
            None => Ok(Err(SpellingFault::NoKey)),
        },
        Spelling::Scan => match read_scan(alloc, item.text)? {
            Ok(item) => Ok(Ok(item)),
            Err(fault) => Ok(Err(SpellingFault::NoScan(fault))),
        },
    }
}

/// The item of an EPC text.
fn epc_of(alloc: Global, text: &str) -> Result<Result<Epc, SpellingFault>, AllocError>
    ensures { IfOk result (λ read. read ≡ reading_by Spelling.Epc text.now) }
{
    match Epc::read(alloc, text) {
        Ok(item) => Ok(Ok(item)),
        Err(EpcFault::NoMemory) => Err(AllocError),
        Err(_) => Ok(Err(SpellingFault::NoEpc)),
    }
}
