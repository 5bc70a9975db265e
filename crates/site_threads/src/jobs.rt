//! What a site is given to do, and what it returned.
ghost use Rattle.std.specs.Prelude.{◌≡◌, IfOk, IfErr, option_map};
ghost use Rattle.site_threads.specs.Inputs.{input_of, is_delivery};
ghost use Rattle.site_threads.specs.Jobs.{is_stop, refusal_number, reply_to, told};

use crate::asked::Asked;
use epc_core::Epc;
use event_json::{Sequence, SiteNo};
use frame_core::RecallId;
use keeper_core::KeepFault;
use site_core::{Effects, Refusal, SiteInput};
use std::alloc::{AllocError, Global};

/// What a site is given to do.
#[derive(Debug, Drop)]
pub enum Job {
    /// To capture the events of a document, which has these bytes.
    Capture(Sequence<u8>),
    /// To start a recall of an item.
    Start(Epc),
}

/// What became of a step.
#[derive(Clone, Copy, PartialEq, Eq)]
pub enum Reply {
    /// The document was captured: how many of its events were fresh, how many the site knew, and how many are of a type
    /// that isn't traced.
    Captured {
        fresh: u64,
        known: u64,
        skipped: u64,
    },
    /// The recall was started, and whether it has ended, since there was nobody to notify.
    Started {
        recall: RecallId,
        ended: bool,
    },
    /// A frame was applied, also where the site refused it.
    Frame,
    /// The job was refused, for the reason of this number: 1 where it is blocked, 2 where an eventID is taken, 3 where
    /// the item isn't known, 4 where the input isn't the site's, 5 where the numbers are spent, 6 where the document
    /// has a fault.
    Refused(u64),
    /// The site stopped in the step, which is kept or not.
    Stopped,
}

/// One step of a site.
#[derive(Drop)]
pub struct Entry {
    /// Its number among the steps of this run, from 1.
    pub number: u64,
    /// What the site was asked.
    pub input: Asked,
    /// What it returned.
    pub reply: Reply,
}

/// What a site returned for a job.
#[derive(Drop)]
pub struct Receipt {
    /// The site.
    pub site: SiteNo,
    /// The number of the step among those of the site's run.
    pub number: u64,
    /// The job.
    pub job: Job,
    /// What was returned.
    pub reply: Reply,
}

impl Reply {
    /// A copy of the reply.
    pub fn same(&self) -> Reply
        ensures { result ≡ self.now }
    {
        *self
    }
}

impl Job {
    /// An equal job.
    pub fn copy(&self, alloc: Global) -> Result<Job, AllocError>
        ensures { IfOk result (λ job. job ≡ self.now) }
    {
        match self {
            Job::Capture(bytes) => {
                let bytes = bytes.as_slice().to_vec(alloc)?;
                Ok(Job::Capture(Sequence::from_vec(bytes)))
            }
            Job::Start(item) => Ok(Job::Start(item.copy(alloc)?)),
        }
    }

    /// What the site is asked by it.
    pub(crate) fn into_input(self) -> SiteInput
        ensures { result ≡ input_of self }
    {
        match self {
            Job::Capture(bytes) => SiteInput::Capture(bytes),
            Job::Start(item) => SiteInput::Start(item),
        }
    }
}

/// A job with a copy for its entry and one for its receipt.
#[derive(Drop)]
pub struct Ready {
    pub job: Job,
    pub entry: Job,
    pub receipt: Job,
    ghost same: { (entry ≡ job) × (receipt ≡ job) },
}

impl Ready {
    /// The job that was made ready, or the same back where there is no memory.
    pub fn of(alloc: Global, job: Option<Job>) -> Result<Option<Ready>, Option<Job>>
        ensures ok { IfOk result (λ ready. option_map (λ x. x.job) ready ≡ job) }
        ensures back { IfErr result (λ back. back ≡ job) }
    {
        let Some(job) = job else {
            return Ok(None);
        };
        let Ok(entry) = job.copy(alloc) else {
            return Err(Some(job));
        };
        let Ok(receipt) = job.copy(alloc) else {
            return Err(Some(job));
        };
        Ok(Some(Ready {
            job,
            entry,
            receipt,
        }))
    }
}

/// Whether the input delivers a frame.
pub(crate) fn is_delivery(input: &SiteInput) -> bool
    ensures { result ≡ is_delivery input.now }
{
    match input {
        SiteInput::Deliver(_) => true,
        _ => false,
    }
}

/// Whether the site stopped in the step.
pub(crate) fn is_stop(reply: Reply) -> bool
    ensures { result ≡ is_stop reply }
{
    matches!(reply, Reply::Stopped)
}

/// What is entered of a step that had these effects.
fn told(effects: Effects) -> Reply
    ensures { result ≡ told effects }
{
    match effects {
        Effects::Captured {
            fresh,
            known,
            skipped,
        } => Reply::Captured {
            fresh,
            known,
            skipped,
        },
        Effects::Started { recall, ended, .. } => Reply::Started { recall, ended },
        _ => Reply::Frame,
    }
}

/// The number of the reason for which a step was refused.
fn refusal_number(why: &Refusal) -> u64
    ensures { result ≡ refusal_number why.now }
{
    match why {
        Refusal::NoMemory => 0,
        Refusal::Blocked { .. } => 1,
        Refusal::IdTaken { .. } => 2,
        Refusal::UnknownItem => 3,
        Refusal::NotMine => 4,
        Refusal::NumbersSpent => 5,
        Refusal::Doc(_) => 6,
    }
}

/// What is entered of a step, by what the keeper returned. `None` where there was no memory.
pub(crate) fn answered(applied: Result<Effects, KeepFault>, frame: bool) -> Option<Reply>
    ensures { result ≡ reply_to frame applied }
{
    match applied {
        Ok(effects) => Some(told(effects)),
        Err(KeepFault::NoMemory) => None,
        Err(KeepFault::Refused(why)) => {
            if frame {
                Some(Reply::Frame)
            } else {
                Some(Reply::Refused(refusal_number(&why)))
            }
        }
        Err(_) => Some(Reply::Stopped),
    }
}
