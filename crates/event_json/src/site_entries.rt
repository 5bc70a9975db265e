//! A site of the list, by its name and its addresses.

ghost use Rattle.std.specs.Prelude.{◌≡◌, ◌<◌, IfSome, IsTrue, IfOk, map, length, bytes_eq, string_bytes};
ghost use Rattle.std.specs.List.{list_all, list_any};
ghost use Rattle.epc_core.specs.Items.{is_plain};
ghost use Rattle.event_json.specs.Sites.{named, addressed};

use crate::texts::PlainText;
use std::alloc::{AllocError, Global};
use std::marker::Model;

/// A site of the list.
#[derive(Debug, Drop)]
pub(crate) struct Entry {
    name: String,
    addresses: Vec<PlainText>,
}

impl Model for Entry {
    ghost use Rattle.std.specs.Prelude.{string_bytes};
    ghost use Rattle.event_json.specs.Sites.{Site};

    ghost Value = { Site };

    ghost view = { λ e. record { name = string_bytes e.name; addresses = e.addresses.items } };
}

impl PartialEq for Entry {
    ghost use Rattle.std.specs.Cmp as Cmp;
    ghost use Rattle.event_json.specs.Contents.{same_site, site_equiv};

    ghost eq = { same_site };

    ghost laws = { Cmp.partial_equiv_from_equiv site_equiv };

    #[tactic(auto, unfolding(crate::specs::Contents::same_site))]
    fn eq(&self, other: &Entry) -> bool {
        self.name == other.name && self.addresses == other.addresses
    }
}

impl Entry {
    pub(crate) fn new(name: String, addresses: Vec<PlainText>) -> Entry
        ensures { result ≡ record { name = string_bytes name; addresses = addresses.items } }
    {
        Entry { name, addresses }
    }

    pub(crate) fn name(&self) -> &str
        ensures { result.now ≡ self.now.name }
    {
        self.name.as_str()
    }

    pub(crate) fn addresses(&self) -> &[PlainText]
        ensures { result.now ≡ self.now.addresses }
    {
        self.addresses.as_slice()
    }

    pub(crate) fn has_address(&self, text: &str) -> bool
        ensures { result ≡ list_any (λ a. bytes_eq a text.now) self.now.addresses }
    {
        self.addresses
            .iter()
            .any(|address| address.as_str() == text)
    }

    pub(crate) fn copy(&self, alloc: Global) -> Result<Entry, AllocError>
        ensures { IfOk result (λ e. e ≡ self.now) }
    {
        let name = String::from_str(alloc, self.name.as_str())?;
        let addresses = copy_addresses(alloc, self.addresses.as_slice())?;
        Ok(Entry { name, addresses })
    }
}

/// The place of the entry of this name.
#[tactic(auto, unfolding(crate::specs::Sites::named))]
pub(crate) fn place_named(entries: &[Entry], name: &str) -> Option<usize>
    ensures value { result ≡ named entries.now name.now }
    ensures within { IfSome result (λ place. place < length entries.now) }
{
    entries.iter().position(|entry| entry.name() == name)
}

/// The place of the entry that has this address.
#[tactic(auto, unfolding(crate::specs::Sites::addressed))]
pub(crate) fn place_addressed(entries: &[Entry], text: &str) -> Option<usize>
    ensures value { result ≡ addressed entries.now text.now }
    ensures within { IfSome result (λ place. place < length entries.now) }
{
    entries.iter().position(|entry| entry.has_address(text))
}

pub(crate) fn copy_addresses(
    alloc: Global,
    addresses: &[PlainText],
) -> Result<Vec<PlainText>, AllocError>
    ensures { IfOk result (λ v. v.items ≡ addresses.now) }
{
    let mut copies = Vec::new(alloc);
    for address in addresses {
        copies.push(address.copy(alloc)?)?;
    }
    Ok(copies)
}

pub(crate) fn copy_entries(alloc: Global, entries: &[Entry]) -> Result<Vec<Entry>, AllocError>
    ensures { IfOk result (λ v. v.items ≡ entries.now) }
{
    let mut copies = Vec::new(alloc);
    for entry in entries {
        copies.push(entry.copy(alloc)?)?;
    }
    Ok(copies)
}

/// Copies of plain texts.
pub(crate) fn addresses_of(alloc: Global, texts: &[&str]) -> Result<Vec<PlainText>, AllocError>
    requires { IsTrue (list_all is_plain (map (λ t. t.now) texts.now)) }
    ensures { IfOk result (λ v. v.items ≡ map (λ t. t.now) texts.now) }
{
    let mut addresses = Vec::new(alloc);
    for text in texts {
        addresses.push(PlainText::of(alloc, *text)?)?;
    }
    Ok(addresses)
}
