//! Faults of the libraries that are called, reported as ours.

ghost use Rattle.std.specs.Prelude.{◌≡◌, ◌↔◌};
ghost use Rattle.serde_json.specs.Errors.{IsMemory};
ghost use Rattle.event_json.specs.Documents.{whole};
ghost use Rattle.event_json.specs.declared.doc_faults.DocField.TheVariants as fields;
ghost use Rattle.event_json.specs.declared.doc_faults.DocFaultKind.TheVariants as kinds;

use crate::doc_faults::{DocFault, DocFaultKind, DocField, ReadFault};

/// Why bytes weren't read as JSON: out of memory where the error says so, and else they are no JSON
/// text.
pub(crate) fn json_fault(error: &serde_json::Error) -> ReadFault
    ensures memory { (result ≡ ReadFault.NoMemory) ↔ IsMemory error.now }
    ensures syntax { (result ≡ ReadFault.Doc (whole fields.Document kinds.Syntax))
        ↔ (IsMemory error.now → ⊥) }
{
    if error.is_memory() {
        ReadFault::NoMemory
    } else {
        ReadFault::Doc(DocFault {
            event: 0,
            field: DocField::Document,
            kind: DocFaultKind::Syntax,
        })
    }
}
