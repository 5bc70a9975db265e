//! Who knows an item that a site doesn't know, and what that site knows in its place.

ghost use Rattle.std.specs.Prelude.{◌≡◌, IfOk, filter, map};
ghost use Rattle.site_recovery.specs.Checking.{records_at};
ghost use Rattle.folder_questions.specs.Knowers.{FindsEndings, FindsIn, FindsInAll, FindsKnower, ends_in, has};

use crate::asked::item_at;
use epc_core::Epc;
use event_json::{SiteNo, Sites};
use item_spellings::Spelled;
use query_core::{KnownItem, known_items_with};
use recall_outcomes::{Knower, Knowers, Notes};
use site_core::{SiteState, is_known};
use site_folders::Question;
use std::alloc::{AllocError, Global};

/// How many items are found that end in a text.
const MAX_ENDINGS: usize = 5;

/// Which sites know an item that the site of a name doesn't know, and which items of that site end in the text that was
/// given for it: at most five. There is no answer for a site that isn't listed, or for a text that spells no item.
#[derive(Drop)]
pub struct KnowersOf<'a> {
    pub site: &'a str,
    pub item: Spelled<'a>,
}

impl Question for KnowersOf<'_> {
    ghost use Rattle.folder_questions.specs.Asked.{AsksItem};
    ghost use Rattle.folder_questions.specs.Knowers.{AnswersKnowers, TellsNobody};

    type Asked = (SiteNo, Epc);

    type Answer = Notes;

    ghost refuses = { λ q sites notes. TellsNobody q.site.now q.item sites notes };

    ghost asks = { λ q sites asked. AsksItem q.site.now q.item sites asked.0 asked.1 };

    // Of an item that a site doesn't know: which sites know it, and in the place of the site itself the first five of
    // its items that end in the text, by key.
    ghost answers = { λ q asked rs notes.
        AnswersKnowers asked.0 asked.1 q.item.text.now rs notes };

    fn read(
        &self,
        alloc: Global,
        sites: &Sites,
    ) -> Result<Result<(SiteNo, Epc), Notes>, AllocError> {
        match item_at(alloc, sites, self.site, &self.item)? {
            Ok(asked) => Ok(Ok(asked)),
            Err(_) => Ok(Err(Notes::Nothing)),
        }
    }

    fn answer(
        &self,
        alloc: Global,
        asked: (SiteNo, Epc),
        records: &[&SiteState],
    ) -> Result<Notes, AllocError> {
        let (site, item) = asked;
        let found = found_in_all(alloc, site, &item, self.item.text, records)?;
        Ok(Notes::Knowers(Knowers {
            item,
            text: String::from_str(alloc, self.item.text)?,
            found,
        }))
    }
}

/// What is found at the sites of these records.
fn found_in_all(
    alloc: Global,
    asked: SiteNo,
    item: &Epc,
    text: &str,
    records: &[&SiteState],
) -> Result<Vec<Knower>, AllocError>
    ensures { IfOk result (λ found.
        FindsInAll asked item.now text.now (records_at records.now) found.items) }
{
    let mut found = Vec::new(alloc);
    for state in records {
        let mut part = found_in(alloc, asked, item, text, state)?;
        found.append(&mut part)?;
    }
    Ok(found)
}

/// What is found at the site of a record.
fn found_in(
    alloc: Global,
    asked: SiteNo,
    item: &Epc,
    text: &str,
    state: &SiteState,
) -> Result<Vec<Knower>, AllocError>
    ensures { IfOk result (λ found. FindsIn asked item.now text.now state.now found.items) }
{
    if state.me() == asked {
        endings(alloc, text, state)
    } else {
        knower(alloc, item, state)
    }
}

/// The site of a record, if it knows an item.
fn knower(alloc: Global, item: &Epc, state: &SiteState) -> Result<Vec<Knower>, AllocError>
    ensures { IfOk result (λ found. FindsKnower item.now state.now found.items) }
{
    let mut found = Vec::new(alloc);
    if is_known(state.captured(), state.quarantine(), item) {
        found.push(Knower::Knows(state.me()))?;
    }
    Ok(found)
}

/// The items of the site of a record that end in a text: at most five.
fn endings(alloc: Global, text: &str, state: &SiteState) -> Result<Vec<Knower>, AllocError>
    ensures { IfOk result (λ found. FindsEndings text.now state.now found.items) }
{
    let known = known_items_with(alloc, state, text)?;
    let mut ending = those_ending(alloc, known, text)?;
    ending.truncate(MAX_ENDINGS);
    had_by(alloc, state.me(), ending)
}

/// Those of the items that end in a text.
fn those_ending(
    alloc: Global,
    found: Vec<KnownItem>,
    text: &str,
) -> Result<Vec<KnownItem>, AllocError>
    ensures { IfOk result (λ ending. ending.items ≡ filter (ends_in text.now) found.items) }
{
    let mut ending = Vec::new(alloc);
    for known in found {
        if ends_in(alloc, &known, text)? {
            ending.push(known)?;
        }
    }
    Ok(ending)
}

/// Whether an item ends in a text.
fn ends_in(alloc: Global, known: &KnownItem, text: &str) -> Result<bool, AllocError>
    ensures { IfOk result (λ ends. ends ≡ ends_in text.now known.now) }
{
    let key = known.item.key(alloc)?;
    Ok(key.as_bytes().ends_with(text.as_bytes()))
}

/// That a site has each of these items.
fn had_by(alloc: Global, site: SiteNo, items: Vec<KnownItem>) -> Result<Vec<Knower>, AllocError>
    ensures { IfOk result (λ found. found.items ≡ map (has site) items.items) }
{
    let mut found = Vec::new(alloc);
    for known in items {
        let item = known.item;
        found.push(Knower::Has { site, item })?;
    }
    Ok(found)
}
