//! `items`: the items that a site knows.

use event_json::{SiteNo, Sites};
use query_core::known_items_with;
use recall_outcomes::Outcome;
use site_core::SiteState;
use site_folders::{SiteQuestion, no_site};
use std::alloc::{AllocError, Global};

/// The items that the site of a name knows, of which the key, as it is printed, contains a text. Each key contains the
/// empty text.
#[derive(Drop)]
pub struct ItemsOf<'a> {
    pub site: &'a str,
    pub text: &'a str,
}

impl SiteQuestion for ItemsOf<'_> {
    ghost use Rattle.std.specs.Prelude.{◌≡◌, Some, None};
    ghost use Rattle.event_json.specs.Sites.{named};
    ghost use Rattle.site_folders.specs.Refusals.{IsNoSite};
    ghost use Rattle.folder_questions.specs.SiteItems.{AnswersItems};

    type Asked = ();

    type Answer = Outcome;

    ghost refuses = { λ q sites outcome.
        (named sites q.site.now ≡ None) × IsNoSite q.site.now outcome };

    ghost asks = { λ q sites site asked. named sites q.site.now ≡ Some site };

    // Which items the site knows whose keys contain the text.
    ghost answers = { λ q asked r outcome. AnswersItems q.text.now r outcome };

    fn read(
        &self,
        alloc: Global,
        sites: &Sites,
    ) -> Result<Result<(SiteNo, ()), Outcome>, AllocError> {
        match sites.find(self.site) {
            Some(site) => Ok(Ok((site, ()))),
            None => Ok(Err(no_site(alloc, self.site)?)),
        }
    }

    fn answer(&self, alloc: Global, _asked: (), state: &SiteState) -> Result<Outcome, AllocError> {
        Ok(Outcome::Known {
            site: state.me(),
            items: known_items_with(alloc, state, self.text)?,
        })
    }
}
