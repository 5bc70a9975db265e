//! The lists of an event: its items and its destinations.

ghost use Rattle.std.specs.Prelude.{◌≡◌, ◌≤◌, ◌==◌, IfOk, OnOk, option_map, All, length, map};
ghost use Rattle.serde_json.specs.View.{view, items_view};
ghost use Rattle.event_json.specs.Faults.{Shows};
ghost use Rattle.event_json.specs.ItemLists.{limit_checked, epc_of, epcs_of, destination_of, destinations_of};
ghost use Rattle.event_json.specs.Lent.{destination_text, key_in, destination_in, IsPlainValue, IsDestination};
ghost use Rattle.event_json.specs.declared.limits.TheConstants.{MAX_LIST_MEMBERS};
ghost use Rattle.event_json.specs.Members.{each};

use crate::doc_faults::{DocFaultKind, DocField, Flaw};
use crate::lent_texts::{EpcText, PlainStr};
use crate::limits::MAX_LIST_MEMBERS;
use crate::members::{list, member_named, plain};
use crate::sequences::Sequence;
use crate::texts::PlainText;
use epc_core::Epc;
use serde_json::Value;
use std::alloc::{AllocError, Global};
use std::marker::Model;

/// A list of EPC texts that a JSON value lends. Contracts see it as the keys of the items that they
/// name, in order.
#[derive(Debug, Drop)]
pub struct EpcTexts<'v> {
    list: &'v [Value],
}

impl<'v> Model for EpcTexts<'v> {
    ghost use Rattle.std.specs.Prelude.{◌≤◌, List, ℕ, All, length, map};
    ghost use Rattle.event_json.specs.declared.limits.TheConstants.{MAX_LIST_MEMBERS};
    ghost use Rattle.event_json.specs.Lent.{key_in, IsPlainValue};

    ghost Value = { List (List ℕ) };

    ghost view = { λ t. map key_in t.list.now };

    ghost invariant = { λ t. All IsPlainValue t.list.now × (length t.list.now ≤ MAX_LIST_MEMBERS) };
}

/// The destinations that a JSON value lends. Contracts see them as their texts, in order.
#[derive(Debug, Drop)]
pub struct DestinationTexts<'v> {
    list: &'v [Value],
}

impl<'v> Model for DestinationTexts<'v> {
    ghost use Rattle.std.specs.Prelude.{◌≤◌, List, ℕ, All, length, map};
    ghost use Rattle.event_json.specs.declared.limits.TheConstants.{MAX_LIST_MEMBERS};
    ghost use Rattle.event_json.specs.Lent.{destination_in, IsDestination};

    ghost Value = { List (List ℕ) };

    ghost view = { λ t. map destination_in t.list.now };

    ghost invariant = { λ t. All IsDestination t.list.now
        × (length t.list.now ≤ MAX_LIST_MEMBERS) };
}

/// Refuses a list of more than 1,000 members.
#[tactic(auto, using(crate::proofs::Lists::items_count), unfolding(crate::specs::ItemLists::limit_checked))]
fn check_limit(list: &[Value], field: DocField) -> Result<(), Flaw>
    ensures checked { result ≡ limit_checked field (items_view list.now) }
    ensures few { OnOk result (length list.now ≤ MAX_LIST_MEMBERS) }
{
    if list.len() > MAX_LIST_MEMBERS {
        Err(Flaw {
            field,
            kind: DocFaultKind::TooManyEpcs,
        })
    } else {
        Ok(())
    }
}

/// The EPC text of a member of a list.
#[tactic(auto, using(crate::proofs::Lent::epc_passes, crate::proofs::Lent::epc_refused), unfolding(crate::specs::ItemLists::epc_of))]
pub fn epc<'v>(value: &'v Value, field: DocField) -> Result<EpcText<'v>, Flaw>
    ensures value { result ≡ epc_of field (view value.now) }
    ensures plain { OnOk result (IsPlainValue value.now) }
    ensures lent { IfOk result (λ key. key ≡ key_in value.now) }
{
    let Some(text) = value.as_str() else {
        return Err(Flaw {
            field,
            kind: DocFaultKind::WrongShape,
        });
    };
    match EpcText::of(text) {
        Some(text) => Ok(text),
        None => Err(Flaw {
            field,
            kind: DocFaultKind::BadEpc,
        }),
    }
}

/// Refuses a list of which a member is no EPC text.
fn check_each_epc(list: &[Value], field: DocField) -> Result<(), Flaw>
    ensures value { Shows (λ _. map key_in list.now) result
        (each (λ _. epc_of field) 1 (items_view list.now)) }
    ensures texts { OnOk result (All IsPlainValue list.now) }
{
    for value in list {
        epc(value, field)?;
    }
    Ok(())
}

/// The EPC texts of a list.
#[tactic(auto, unfolding(crate::specs::ItemLists::epcs_of))]
pub fn epcs<'v>(value: &'v Value, field: DocField) -> Result<EpcTexts<'v>, Flaw>
    ensures { result ≡ epcs_of field (view value.now) }
{
    let list = list(value, field)?;
    check_limit(list, field)?;
    check_each_epc(list, field)?;
    Ok(EpcTexts { list })
}

/// The text of the member `destination`, where it is a text.
fn destination_text(value: &Value) -> Option<&str>
    ensures { option_map (λ s. s.now) result ≡ destination_text (view value.now) }
{
    member_named(value, "destination")?.as_str()
}

/// The text of a member of the destination list.
#[tactic(auto, unfolding(crate::specs::ItemLists::destination_of))]
fn destination<'v>(value: &'v Value) -> Result<PlainStr<'v>, Flaw>
    ensures value { result ≡ destination_of (view value.now) }
    ensures plain { OnOk result (IsDestination value.now) }
    ensures lent { IfOk result (λ text. text ≡ destination_in value.now) }
{
    if !value.is_object() {
        return Err(Flaw {
            field: DocField::DestinationList,
            kind: DocFaultKind::WrongShape,
        });
    }
    match member_named(value, "destination") {
        Some(found) => plain(found, DocField::DestinationList),
        None => Err(Flaw {
            field: DocField::DestinationList,
            kind: DocFaultKind::Missing,
        }),
    }
}

/// Refuses a list of which a member is no destination.
fn check_each_destination(list: &[Value]) -> Result<(), Flaw>
    ensures value { Shows (λ _. map destination_in list.now) result
        (each (λ _. destination_of) 1 (items_view list.now)) }
    ensures texts { OnOk result (All IsDestination list.now) }
{
    for value in list {
        destination(value)?;
    }
    Ok(())
}

/// The destinations of an event.
#[tactic(auto, unfolding(crate::specs::ItemLists::destinations_of))]
pub fn destinations<'v>(value: &'v Value) -> Result<DestinationTexts<'v>, Flaw>
    ensures { result ≡ destinations_of (view value.now) }
{
    let list = list(value, DocField::DestinationList)?;
    check_limit(list, DocField::DestinationList)?;
    check_each_destination(list)?;
    Ok(DestinationTexts { list })
}

/// The EPC text of a value that is one.
fn lent_epc<'v>(value: &'v Value) -> EpcText<'v>
    requires { IsPlainValue value.now }
    ensures { result ≡ key_in value.now }
{
    let Some(text) = value.as_str() else {
        unreachable!()
    };
    EpcText::known(text)
}

/// The text of a value that is a destination.
fn lent_destination<'v>(value: &'v Value) -> PlainStr<'v>
    requires { IsDestination value.now }
    ensures { result ≡ destination_in value.now }
{
    let Some(text) = destination_text(value) else {
        unreachable!()
    };
    PlainStr::known(text)
}

/// The items that EPC texts name, in order.
fn each_epc(alloc: Global, list: &[Value]) -> Result<Sequence<Epc>, AllocError>
    requires { All IsPlainValue list.now }
    ensures { IfOk result (λ items. items ≡ map key_in list.now) }
{
    let mut items = Vec::with_capacity(alloc, list.len())?;
    for value in list {
        items.push(lent_epc(value).read(alloc)?)?;
    }
    Ok(Sequence::from_vec(items))
}

/// Copies of the texts of destinations, in order.
fn each_destination(alloc: Global, list: &[Value]) -> Result<Sequence<PlainText>, AllocError>
    requires { All IsDestination list.now }
    ensures { IfOk result (λ texts. texts ≡ map destination_in list.now) }
{
    let mut texts = Vec::with_capacity(alloc, list.len())?;
    for value in list {
        texts.push(lent_destination(value).copy(alloc)?)?;
    }
    Ok(Sequence::from_vec(texts))
}

impl<'v> EpcTexts<'v> {
    /// Whether there is none.
    pub fn is_empty(&self) -> bool
        ensures { result ≡ (length self.now == 0) }
    {
        self.list.is_empty()
    }

    /// The items that the texts name, in order. It fails only where memory runs out.
    pub fn read(&self, alloc: Global) -> Result<Sequence<Epc>, AllocError>
        ensures value { IfOk result (λ items. items ≡ self.now) }
        ensures few { IfOk result (λ items. length items ≤ MAX_LIST_MEMBERS) }
    {
        each_epc(alloc, self.list)
    }
}

impl<'v> DestinationTexts<'v> {
    /// Copies of the texts, in order. It fails only where memory runs out.
    pub fn copy(&self, alloc: Global) -> Result<Sequence<PlainText>, AllocError>
        ensures value { IfOk result (λ texts. texts ≡ self.now) }
        ensures few { IfOk result (λ texts. length texts ≤ MAX_LIST_MEMBERS) }
    {
        each_destination(alloc, self.list)
    }
}
