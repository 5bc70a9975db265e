//! What a site was asked in a step, as its list of steps keeps it.
ghost use Rattle.std.specs.Prelude.{◌≡◌, ◌↔◌, IsTrue};
ghost use Rattle.site_threads.specs.Inputs.{IsAskedBy, input_of};

use crate::jobs::Job;
use site_core::SiteInput;
use std::marker::Model;
use std::snapshot::Snapshot;

/// What a site was asked in a step. A job is kept, to be compared with those of receipts; of a frame, of which a run
/// may have any number, nothing is kept, and only proofs speak of it.
#[derive(Drop)]
pub struct Asked {
    job: Option<Job>,
    input: Snapshot<SiteInput>,
}

impl Model for Asked {
    ghost use Rattle.site_core.specs.declared.inputs.SiteInput.{SiteInput};
    ghost use Rattle.site_threads.specs.Inputs.{IsAskedBy};

    ghost Value = { SiteInput };

    ghost view = { λ a. a.input.value };

    // What isn't a job's is a frame's.
    ghost invariant = { λ a. IsAskedBy a.job a.input.value };
}

impl Asked {
    /// Of an input: of a job, if one is given, and else of a frame.
    pub(crate) fn of(input: &SiteInput, job: Option<Job>) -> Asked
        requires { IsAskedBy job input.now }
        ensures { result ≡ input.now }
    {
        Asked {
            job,
            input: Snapshot::of(input),
        }
    }

    /// The input, for proofs alone.
    pub(crate) fn input(&self) -> &Snapshot<SiteInput>
        ensures { result.now.value ≡ self.now }
    {
        &self.input
    }

    /// Whether it is what a site is asked by this job.
    pub fn is_of(&self, job: &Job) -> bool
        ensures { IsTrue result ↔ (self.now ≡ input_of job.now) }
    {
        match &self.job {
            None => false,
            Some(kept) => are_equal(kept, job),
        }
    }
}

/// Whether two jobs ask the same of a site.
fn are_equal(one: &Job, other: &Job) -> bool
    ensures { IsTrue result ↔ (input_of one.now ≡ input_of other.now) }
{
    match (one, other) {
        (Job::Capture(bytes), Job::Capture(given)) => bytes == given,
        (Job::Start(item), Job::Start(given)) => item == given,
        _ => false,
    }
}
