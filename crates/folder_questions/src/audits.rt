//! `audit`: whether the records of the sites are consistent, whether each ended recall quarantined what it is to, and
//! which sites the others wait at in vain; and what recalls miss.

ghost use Rattle.std.specs.Prelude.{true, false, IfOk};
ghost use Rattle.std.specs.List.{AllZip};
ghost use Rattle.site_recovery.specs.Checking.{records_at};
ghost use Rattle.site_recovery.specs.FittingAt.{AreAllSites};
ghost use Rattle.site_folders.specs.Begun.{begun};
ghost use Rattle.folder_questions.specs.Audits.{AnswersAudit, AuditsRecall, NotesAudit};

use crate::missed_notes::are_none;
use event_json::Sites;
use query_core::{StuckRecall, stuck_recalls};
use recall_outcomes::{AuditNotes, AuditedRecall, Notes, Outcome, StartedRecall};
use report_core::{ReportFault, audit};
use site_core::SiteState;
use site_folders::{Question, begun, missed_from, roots};
use site_recovery::{CheckFault, check_world};
use std::alloc::{AllocError, Global};

/// Whether the records are consistent, and how the quarantine of each recall that ended compares with what it is to
/// be; and beside that, at which sites a recall waits in vain, and what recalls miss.
#[derive(Drop)]
pub struct Audit {
    /// Whether the records may be copies that were taken one after another, which needn't be consistent: each recall
    /// that has ended is audited all the same.
    pub ended: bool,
    /// Whether the program's status tells that a recall is open.
    pub coded: bool,
}

impl Question for Audit {
    ghost use Rattle.std.specs.Prelude.{⊤};
    ghost use Rattle.folder_questions.specs.Audits.{AnswersAudit};

    type Asked = ();

    type Answer = (Outcome, Notes);

    ghost refuses = { λ q sites told. ⊥ };

    ghost asks = { λ q sites asked. ⊤ };

    // The condition and the site of inconsistent records; or that they are consistent, with each recall that a site
    // began, one for one and in order: that it is open, or the verdict on it; and noted beside that, where there is
    // any, each site that takes part in a recall without a message of it, and just what the roots of all recalls reach
    // and miss. Of copies that needn't be consistent each recall is audited so, and what is missed is noted.
    ghost answers = { λ q asked rs told. AnswersAudit rs q.ended q.coded told.0 told.1 };

    fn read(
        &self,
        _alloc: Global,
        _sites: &Sites,
    ) -> Result<Result<(), (Outcome, Notes)>, AllocError> {
        Ok(Ok(()))
    }

    fn answer(
        &self,
        alloc: Global,
        _asked: (),
        records: &[&SiteState],
    ) -> Result<(Outcome, Notes), AllocError> {
        if self.ended {
            audit_copies(alloc, records, self.coded)
        } else {
            audit_world(alloc, records, self.coded)
        }
    }
}

/// An audit of records that may be copies of different moments.
fn audit_copies(
    alloc: Global,
    records: &[&SiteState],
    coded: bool,
) -> Result<(Outcome, Notes), AllocError>
    requires { AreAllSites (records_at records.now) }
    ensures { IfOk result (λ told. AnswersAudit (records_at records.now) true coded told.0 told.1) }
{
    let recalls = audit_recalls(alloc, records)?;
    let audited = Outcome::Audited {
        recalls,
        ended: true,
        coded,
    };
    Ok((audited, audit_notes(alloc, records, Vec::new(alloc))?))
}

/// An audit of records that should be consistent.
fn audit_world(
    alloc: Global,
    records: &[&SiteState],
    coded: bool,
) -> Result<(Outcome, Notes), AllocError>
    requires { AreAllSites (records_at records.now) }
    ensures { IfOk result (λ told. AnswersAudit (records_at records.now) false coded told.0 told.1) }
{
    match check_world(alloc, records) {
        Ok(()) => {
            let recalls = audit_recalls(alloc, records)?;
            let audited = Outcome::Audited {
                recalls,
                ended: false,
                coded,
            };
            let stuck = stuck_recalls(alloc, records)?;
            Ok((audited, audit_notes(alloc, records, stuck)?))
        }
        Err(CheckFault::Misfit(misfit)) => Ok((Outcome::Inconsistent(misfit), Notes::Nothing)),
        Err(CheckFault::NoMemory) => Err(AllocError),
    }
}

/// The sites that recalls wait at in vain, and what recalls miss, where there is any.
fn audit_notes(
    alloc: Global,
    records: &[&SiteState],
    stuck: Vec<StuckRecall>,
) -> Result<Notes, AllocError>
    requires all { AreAllSites (records_at records.now) }
    ensures { IfOk result (NotesAudit (records_at records.now) stuck.items) }
{
    let roots = roots(alloc, records, true)?;
    let missed = missed_from(alloc, records, roots.as_slice())?;
    if are_none(missed.as_slice(), stuck.len()) {
        return Ok(Notes::Nothing);
    }
    Ok(Notes::Audit(AuditNotes { stuck, missed }))
}

/// Audits each recall that a site began, by site, then by number.
fn audit_recalls(alloc: Global, records: &[&SiteState]) -> Result<Vec<AuditedRecall>, AllocError>
    requires { AreAllSites (records_at records.now) }
    ensures { IfOk result (λ v. AllZip (AuditsRecall (records_at records.now))
        (begun (records_at records.now)) v.items) }
{
    let mut audited = Vec::new(alloc);
    let recalls = begun(alloc, records)?;
    for recall in &recalls {
        audited.push(audit_recall(alloc, records, recall)?)?;
    }
    Ok(audited)
}

/// Audits a recall.
fn audit_recall(
    alloc: Global,
    records: &[&SiteState],
    begun: &StartedRecall,
) -> Result<AuditedRecall, AllocError>
    requires { AreAllSites (records_at records.now) }
    ensures { IfOk result (AuditsRecall (records_at records.now) begun.now) }
{
    let recall = begun.recall;
    if !begun.ended {
        return Ok(AuditedRecall {
            recall,
            verdict: None,
        });
    }
    match audit(alloc, records, recall) {
        Ok(verdict) => Ok(AuditedRecall {
            recall,
            verdict: Some(verdict),
        }),
        // The recall is among those that a site began.
        Err(ReportFault::UnknownRecall | ReportFault::NoMemory) => Err(AllocError),
    }
}
