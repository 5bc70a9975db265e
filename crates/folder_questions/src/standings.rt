//! `status`: how recalls stand, and what one of them waits for.

ghost use Rattle.std.specs.Prelude.{◌≡◌};

use crate::asked::recall_at;
use crate::beside::misfit_notes;
use event_json::Sites;
use frame_core::RecallId;
use query_core::{QueryFault, recall_detail, recall_statuses};
use recall_outcomes::{CommandRefusal, Notes, Outcome};
use site_core::SiteState;
use site_folders::{Question, refusal};
use std::alloc::{AllocError, Global};

/// How each recall stands that a site began.
#[derive(Drop)]
pub struct Statuses {
    /// Whether the status tells that one is open.
    pub coded: bool,
}

impl Question for Statuses {
    ghost use Rattle.std.specs.Prelude.{⊤};
    ghost use Rattle.folder_questions.specs.Standings.{AnswersRecalls};

    type Asked = ();

    type Answer = (Outcome, Notes);

    ghost refuses = { λ q sites told. ⊥ };

    ghost asks = { λ q sites asked. ⊤ };

    // How the recalls stand, and how the records contradict each other, if they do.
    ghost answers = { λ q asked rs told. AnswersRecalls rs q.coded told.0 told.1 };

    fn read(
        &self,
        _alloc: Global,
        _sites: &Sites,
    ) -> Result<Result<(), (Outcome, Notes)>, AllocError> {
        Ok(Ok(()))
    }

    fn answer(
        &self,
        alloc: Global,
        _asked: (),
        records: &[&SiteState],
    ) -> Result<(Outcome, Notes), AllocError> {
        let standing = Outcome::Standing {
            recalls: recall_statuses(alloc, records)?,
            coded: self.coded,
        };
        Ok((standing, misfit_notes(alloc, records)?))
    }
}

/// How the recall stands that a text names: at each site that it concerns, and which messages of it wait.
#[derive(Drop)]
pub struct StatusOf<'a> {
    pub recall: &'a str,
    /// Whether the status tells that it is open.
    pub coded: bool,
}

impl Question for StatusOf<'_> {
    ghost use Rattle.folder_questions.specs.Asked.{AsksRecall, RefusesRecall};
    ghost use Rattle.folder_questions.specs.Standings.{AnswersRecall};
    ghost use Rattle.recall_outcomes.specs.declared.notes.Notes.TheVariants.{Nothing};

    type Asked = RecallId;

    type Answer = (Outcome, Notes);

    ghost refuses = { λ q sites told. RefusesRecall q.recall.now sites told.0 × (told.1 ≡ Nothing) };

    ghost asks = { λ q sites recall. AsksRecall q.recall.now sites recall };

    // How the recall stands, and what it waits for, and how the records contradict each other, if they do.
    ghost answers = { λ q recall rs told. AnswersRecall rs recall q.coded told.0 told.1 };

    fn read(
        &self,
        alloc: Global,
        sites: &Sites,
    ) -> Result<Result<RecallId, (Outcome, Notes)>, AllocError> {
        match recall_at(alloc, sites, self.recall)? {
            Ok(recall) => Ok(Ok(recall)),
            Err(refused) => Ok(Err((refused, Notes::Nothing))),
        }
    }

    fn answer(
        &self,
        alloc: Global,
        recall: RecallId,
        records: &[&SiteState],
    ) -> Result<(Outcome, Notes), AllocError> {
        match recall_detail(alloc, records, recall) {
            Ok(detail) => {
                let waiting = Outcome::Waiting {
                    detail,
                    coded: self.coded,
                };
                Ok((waiting, misfit_notes(alloc, records)?))
            }
            Err(QueryFault::UnknownRecall) => {
                Ok((
                    refusal(alloc, CommandRefusal::UnknownRecall)?,
                    Notes::Nothing,
                ))
            }
            Err(QueryFault::NoMemory) => Err(AllocError),
        }
    }
}
