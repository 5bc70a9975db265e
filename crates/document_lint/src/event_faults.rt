//! Every fault of an event, by the checks of its members.

ghost use Rattle.std.specs.Prelude.{◌≡◌, ◌∷◌, ◌++◌, ◌||◌, [], OnOk};
ghost use Rattle.serde_json.specs.View.{view};
ghost use Rattle.event_json.specs.Checks.{action_of};
ghost use Rattle.event_json.specs.ItemLists.{epcs_of};
ghost use Rattle.event_json.specs.declared.doc_faults.DocField.TheVariants as fields;
ghost use Rattle.document_lint.specs.EventFaults.{aggregation_faults, event_faults, faults_in, head_faults, identity_of, is_empty, object_faults, parent_by, transformation_faults};
ghost use Rattle.document_lint.specs.MemberFaults.{told_by};
ghost use Rattle.document_lint.specs.declared.findings.What.TheVariants.{Fault};

use crate::event_lists::type_text;
use crate::findings::What;
use crate::list_checks::{check_destinations, check_parent, epcs};
use crate::member_checks::{
    MemberFault, action, check_action, check_zone, identifier, time, without_declaration,
    without_quantities,
};
use event_json::{Action, DocFaultKind, DocField};
use serde_json::Value;
use std::alloc::AllocError;

/// Adds all faults of an event, in the order of their checks.
#[tactic(auto, unfolding(event_json::specs::Checks::event_type, event_json::specs::Checks::type_named))]
pub(crate) fn push_event_faults(found: &mut Vec<What>, value: &Value) -> Result<(), AllocError>
    ensures { OnOk result (found.new.items ≡ found.old.items ++ event_faults (view value.now)) }
{
    if !value.is_object() {
        return push_fault(found, DocField::Event, DocFaultKind::WrongShape);
    }
    match type_text(value) {
        Some("ObjectEvent") => push_object(found, value),
        Some("AggregationEvent") => push_aggregation(found, value),
        Some("TransactionEvent") => Ok(()),
        Some("TransformationEvent") => push_transformation(found, value),
        Some("AssociationEvent") => Ok(()),
        _ => push_fault(found, DocField::Type, DocFaultKind::NoType),
    }
}

/// Adds a fault.
fn push_fault(found: &mut Vec<What>, field: DocField, kind: DocFaultKind) -> Result<(), AllocError>
    ensures { OnOk result (found.new.items
        ≡ found.old.items ++ Fault field kind ∷ []) }
{
    found.push(What::Fault { field, kind })?;
    Ok(())
}

/// Adds the fault that a check found, if it did.
fn push_found<T: Drop>(
    found: &mut Vec<What>,
    check: Result<T, MemberFault>,
) -> Result<(), AllocError>
    ensures { OnOk result (found.new.items ≡ found.old.items ++ told_by check) }
{
    match check {
        Ok(_) => Ok(()),
        Err(fault) => push_fault(found, fault.field, fault.kind),
    }
}

/// Adds the faults of members that every event has.
fn push_head(found: &mut Vec<What>, value: &Value) -> Result<(), AllocError>
    ensures { OnOk result (found.new.items ≡ found.old.items ++ head_faults (view value.now)) }
{
    push_found(found, identifier(value, DocField::EventId))?;
    push_found(found, time(value))?;
    push_found(found, check_zone(value))
}

/// Adds the faults of an ObjectEvent.
fn push_object(found: &mut Vec<What>, value: &Value) -> Result<(), AllocError>
    ensures { OnOk result (found.new.items ≡ found.old.items ++ object_faults (view value.now)) }
{
    push_found(found, without_declaration(value))?;
    push_found(found, without_quantities(value, DocField::QuantityList))?;
    push_head(found, value)?;
    push_found(found, check_action(value))?;
    push_found(found, epcs(value, DocField::EpcList))?;
    push_found(found, check_destinations(value))
}

/// Adds the faults of a TransformationEvent.
fn push_transformation(found: &mut Vec<What>, value: &Value) -> Result<(), AllocError>
    ensures { OnOk result (found.new.items
        ≡ found.old.items ++ transformation_faults (view value.now)) }
{
    push_found(found, without_declaration(value))?;
    push_found(
        found,
        without_quantities(value, DocField::InputQuantityList),
    )?;
    push_found(
        found,
        without_quantities(value, DocField::OutputQuantityList),
    )?;
    push_head(found, value)?;
    push_found(found, epcs(value, DocField::InputEpcList))?;
    push_found(found, epcs(value, DocField::OutputEpcList))?;
    push_found(found, check_identity(value, is_half(value)))
}

/// Whether one of a transformation's lists is read and empty.
fn is_half(value: &Value) -> bool
    ensures { result ≡ (is_empty (epcs_of fields.InputEpcList (view value.now))
        || is_empty (epcs_of fields.OutputEpcList (view value.now))) }
{
    is_empty(value, DocField::InputEpcList) || is_empty(value, DocField::OutputEpcList)
}

/// Whether a list is read and empty.
fn is_empty(value: &Value, field: DocField) -> bool
    ensures { result ≡ is_empty (epcs_of field (view value.now)) }
{
    match epcs(value, field) {
        Ok(items) => items.is_empty(),
        Err(_) => false,
    }
}

/// Refuses a transformation without an id that lacks a half.
fn check_identity(value: &Value, is_half: bool) -> Result<(), MemberFault>
    ensures { told_by result ≡ faults_in (identity_of is_half (view value.now)) }
{
    let id = identifier(value, DocField::TransformationId)?;
    if id.is_none() && is_half {
        Err(MemberFault {
            field: DocField::TransformationId,
            kind: DocFaultKind::HalfTransformation,
        })
    } else {
        Ok(())
    }
}

/// Adds the faults of an AggregationEvent.
fn push_aggregation(found: &mut Vec<What>, value: &Value) -> Result<(), AllocError>
    ensures { OnOk result (found.new.items
        ≡ found.old.items ++ aggregation_faults (view value.now)) }
{
    push_found(found, without_declaration(value))?;
    push_found(
        found,
        without_quantities(value, DocField::ChildQuantityList),
    )?;
    push_head(found, value)?;
    push_found(found, action(value))?;
    push_found(found, check_known_parent(value))?;
    push_found(found, epcs(value, DocField::ChildEpcs))
}

/// Refuses an aggregation for its parent, as the action says; where that isn't known, for a parent that is named.
fn check_known_parent(value: &Value) -> Result<(), MemberFault>
    ensures { told_by result ≡ faults_in (parent_by (action_of (view value.now)) (view value.now)) }
{
    match action(value) {
        Ok(action) => check_parent(value, action),
        Err(_) => check_parent(value, Action::Observe),
    }
}
