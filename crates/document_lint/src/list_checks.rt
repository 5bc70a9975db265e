//! The checks of an event's lists, and of what an aggregation's children were put into.

ghost use Rattle.std.specs.Prelude.{◌≡◌, map, option_map};
ghost use Rattle.serde_json.specs.View.{items_view, view};
ghost use Rattle.event_json.specs.Checks.{action_of};
ghost use Rattle.event_json.specs.EventReading.{parent_of};
ghost use Rattle.event_json.specs.ItemLists.{destination_of, destinations_of, epc_of, epcs_of, limit_checked};
ghost use Rattle.event_json.specs.Lent.{destination_in, key_in};
ghost use Rattle.event_json.specs.Members.{each};
ghost use Rattle.document_lint.specs.EventFaults.{faults_in};
ghost use Rattle.document_lint.specs.MemberFaults.{Finds, told_by};

use crate::event_lists::member_named;
use crate::member_checks::{MemberFault, list, member, plain};
use epc_core::is_plain;
use event_json::{Action, DocFaultKind, DocField, MAX_LIST_MEMBERS};
use serde_json::Value;

/// Refuses a list of more than 1,000 members.
#[tactic(auto, using(event_json::proofs::Lists::items_count), unfolding(event_json::specs::ItemLists::limit_checked))]
fn check_limit(list: &[Value], field: DocField) -> Result<(), MemberFault>
    ensures { Finds (λ u. u) result (limit_checked field (items_view list.now)) }
{
    if list.len() > MAX_LIST_MEMBERS {
        Err(MemberFault {
            field,
            kind: DocFaultKind::TooManyEpcs,
        })
    } else {
        Ok(())
    }
}

/// Refuses a value that is no EPC text.
#[tactic(auto, using(event_json::proofs::Lent::epc_passes, event_json::proofs::Lent::epc_refused), unfolding(event_json::specs::ItemLists::epc_of))]
fn check_epc(value: &Value, field: DocField) -> Result<(), MemberFault>
    ensures { Finds (λ _. key_in value.now) result (epc_of field (view value.now)) }
{
    let Some(text) = value.as_str() else {
        return Err(MemberFault {
            field,
            kind: DocFaultKind::WrongShape,
        });
    };
    if is_plain(text) {
        Ok(())
    } else {
        Err(MemberFault {
            field,
            kind: DocFaultKind::BadEpc,
        })
    }
}

/// Refuses a list of which a member is no EPC text.
fn check_each_epc(list: &[Value], field: DocField) -> Result<(), MemberFault>
    ensures { Finds (λ _. map key_in list.now) result
        (each (λ _. epc_of field) 1 (items_view list.now)) }
{
    for value in list {
        check_epc(value, field)?;
    }
    Ok(())
}

/// The members of a list of EPC texts.
#[tactic(auto, unfolding(event_json::specs::ItemLists::epcs_of))]
pub(crate) fn epcs(value: &Value, field: DocField) -> Result<&[Value], MemberFault>
    ensures value { Finds (λ l. map key_in l.now) result (epcs_of field (view value.now)) }
    ensures told { told_by result ≡ faults_in (epcs_of field (view value.now)) }
{
    let list = list(value, field)?;
    check_limit(list, field)?;
    check_each_epc(list, field)?;
    Ok(list)
}

/// Refuses a value that is no destination.
#[tactic(auto, unfolding(event_json::specs::ItemLists::destination_of))]
fn check_destination(value: &Value) -> Result<(), MemberFault>
    ensures { Finds (λ _. destination_in value.now) result (destination_of (view value.now)) }
{
    if !value.is_object() {
        return Err(MemberFault {
            field: DocField::DestinationList,
            kind: DocFaultKind::WrongShape,
        });
    }
    match member_named(value, "destination") {
        Some(found) => {
            plain(found, DocField::DestinationList)?;
            Ok(())
        }
        None => Err(MemberFault {
            field: DocField::DestinationList,
            kind: DocFaultKind::Missing,
        }),
    }
}

/// Refuses a list of which a member is no destination.
fn check_each_destination(list: &[Value]) -> Result<(), MemberFault>
    ensures { Finds (λ _. map destination_in list.now) result
        (each (λ _. destination_of) 1 (items_view list.now)) }
{
    for value in list {
        check_destination(value)?;
    }
    Ok(())
}

/// Refuses an event of which a destination is none.
#[tactic(auto, unfolding(event_json::specs::ItemLists::destinations_of))]
pub(crate) fn check_destinations(value: &Value) -> Result<(), MemberFault>
    ensures { told_by result ≡ faults_in (destinations_of (view value.now)) }
{
    let list = list(value, DocField::DestinationList)?;
    check_limit(list, DocField::DestinationList)?;
    check_each_destination(list)
}

/// Refuses an event whose children were put into something that isn't named, or that is no EPC text.
#[tactic(auto, unfolding(event_json::specs::EventReading::parent_of))]
pub(crate) fn check_parent(value: &Value, action: Action) -> Result<(), MemberFault>
    ensures { told_by result ≡ faults_in (parent_of action (view value.now)) }
{
    match (member(value, DocField::ParentId), action) {
        (Some(found), _) => check_epc(found, DocField::ParentId),
        (None, Action::Add) => Err(MemberFault {
            field: DocField::ParentId,
            kind: DocFaultKind::Missing,
        }),
        (None, _) => Ok(()),
    }
}
