//! `items --in`: what lies in an item.

ghost use Rattle.std.specs.Prelude.{IfOk};
ghost use Rattle.site_recovery.specs.Checking.{records_at};
ghost use Rattle.site_recovery.specs.FittingAt.{AreAllSites};
ghost use Rattle.folder_questions.specs.Contents.{AnswersContents};

use crate::asked::{item_at, record_of, unknown};
use epc_core::Epc;
use event_json::{SiteNo, Sites};
use gap_core::items_inside;
use item_spellings::Spelled;
use query_core::counted_items;
use recall_outcomes::Outcome;
use site_core::{SiteState, is_known};
use site_folders::Question;
use site_recovery::captured;
use std::alloc::{AllocError, Global};

/// The items that lie in an item that the site of a name knows, at any depth and by the packings of all sites, and of
/// which the key contains a text, each with how many events of that site name it. Each key contains the empty text.
#[derive(Drop)]
pub struct ContentsOf<'a> {
    pub site: &'a str,
    pub item: Spelled<'a>,
    pub text: &'a str,
}

impl Question for ContentsOf<'_> {
    ghost use Rattle.folder_questions.specs.Asked.{AsksItem, RefusesItem};
    ghost use Rattle.folder_questions.specs.Contents.{AnswersContents};

    type Asked = (SiteNo, Epc);

    type Answer = Outcome;

    ghost refuses = { λ q sites outcome. RefusesItem q.site.now q.item sites outcome };

    ghost asks = { λ q sites asked. AsksItem q.site.now q.item sites asked.0 asked.1 };

    // Just the items that any site put into the item, or into what was, by their keys; or `UnknownItem` exactly where
    // the site doesn't know it.
    ghost answers = { λ q asked rs outcome. AnswersContents rs asked.0 asked.1 q.text.now outcome };

    fn read(
        &self,
        alloc: Global,
        sites: &Sites,
    ) -> Result<Result<(SiteNo, Epc), Outcome>, AllocError> {
        item_at(alloc, sites, self.site, &self.item)
    }

    fn answer(
        &self,
        alloc: Global,
        asked: (SiteNo, Epc),
        records: &[&SiteState],
    ) -> Result<Outcome, AllocError> {
        let (site, item) = asked;
        contents_at(alloc, records, site, &item, self.text)
    }
}

/// What lies in an item, if the site knows it.
fn contents_at(
    alloc: Global,
    records: &[&SiteState],
    site: SiteNo,
    item: &Epc,
    text: &str,
) -> Result<Outcome, AllocError>
    requires all { AreAllSites (records_at records.now) }
    ensures { IfOk result (AnswersContents (records_at records.now) site item.now text.now) }
{
    let Some(state) = record_of(records, site) else {
        return unknown(alloc);
    };
    if !is_known(state.captured(), state.quarantine(), item) {
        return unknown(alloc);
    }
    let captured = captured(alloc, records)?;
    let inside = items_inside(alloc, captured.as_slice(), item)?;
    Ok(Outcome::Known {
        site,
        items: counted_items(alloc, state, inside, text)?,
    })
}
