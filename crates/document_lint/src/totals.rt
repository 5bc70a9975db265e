//! What is found in several documents, in numbers.

ghost use Rattle.std.specs.Prelude.{◌≡◌, IfOk, count_by, not, string_bytes};
ghost use Rattle.serde_json.specs.View.{view};
ghost use Rattle.document_lint.specs.Lines.{is_fault, json_line, none_yet, totals_json, totals_status, totals_text, with_lint};

use crate::finding_json::json_line;
use crate::findings::{Finding, Lint, What};
use serde_json::{Value, json};
use std::alloc::{AllocError, Global};

/// What is found in several documents. Each count is at most 2^64 - 1, and stays there.
#[derive(Clone, Copy, Debug, PartialEq, Eq)]
pub struct LintTotals {
    /// The events of their lists.
    pub events: u64,
    /// The faults, of events and of documents.
    pub faults: u64,
    /// All other findings.
    pub warnings: u64,
}

impl LintTotals {
    /// Before the first document.
    pub fn new() -> LintTotals
        ensures { result ≡ none_yet }
    {
        LintTotals {
            events: 0,
            faults: 0,
            warnings: 0,
        }
    }

    /// With what is found in a document more.
    pub fn with(self, lint: &Lint) -> LintTotals
        ensures { result ≡ with_lint self lint.now }
    {
        let findings = lint.findings.as_slice();
        LintTotals {
            events: self.events.saturating_add(lint.events),
            faults: self.faults.saturating_add(faults(findings)),
            warnings: self.warnings.saturating_add(warnings(findings)),
        }
    }

    /// The line that reports them, as `total events 9 faults 1 warnings 6`, with its LF.
    ///
    /// # Errors
    /// Where memory runs out.
    pub fn text(self, alloc: Global) -> Result<String, AllocError>
        ensures { IfOk result (λ t. string_bytes t ≡ totals_text self) }
    {
        let LintTotals {
            events,
            faults,
            warnings,
        } = self;
        let mut text = format!(in alloc; "total events {events} faults {faults}")?;
        let rest = format!(in alloc; " warnings {warnings}\n")?;
        text.push_str(rest.as_str())?;
        Ok(text)
    }

    /// The same as a line of JSON.
    ///
    /// # Errors
    /// Where memory runs out.
    pub fn json(self, alloc: Global) -> Result<String, AllocError>
        ensures { IfOk result (λ t. string_bytes t ≡ json_line (totals_json self)) }
    {
        let value = self.value(alloc)?;
        json_line(alloc, &value)
    }

    /// Their value.
    fn value(self, alloc: Global) -> Result<Value, AllocError>
        ensures { IfOk result (λ v. view v ≡ totals_json self) }
    {
        let total =
            json!(in alloc; {"events": self.events, "faults": self.faults, "warnings": self.warnings})?;
        json!(in alloc; {"total": total})
    }

    /// The status of a program that ends with them: 1 where there is a fault, else 0.
    pub fn status(self) -> u8
        ensures { result ≡ totals_status self }
    {
        if self.faults == 0 { 0 } else { 1 }
    }
}

/// How many findings are faults.
fn faults(findings: &[Finding]) -> u64
    ensures { result ≡ count_by is_fault findings.now }
{
    findings.iter().filter(|f| is_fault(f)).count() as u64
}

/// How many findings are none.
fn warnings(findings: &[Finding]) -> u64
    ensures { result ≡ count_by (λ f. not (is_fault f)) findings.now }
{
    findings.iter().filter(|f| !is_fault(f)).count() as u64
}

/// Whether a finding is a fault.
fn is_fault(finding: &Finding) -> bool
    ensures { result ≡ is_fault finding.now }
{
    match &finding.what {
        What::Fault { field: _, kind: _ } => true,
        _ => false,
    }
}
