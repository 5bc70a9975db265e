//! Where packings come from that are known at sites.
ghost use Rattle.std.specs.Prelude.{◌≡◌, ◌∷◌, ◌||◌, [], ℕ, List, false, IfOk, OnOk, Contains};
ghost use Rattle.std.specs.BTreeMap.{get};
ghost use Rattle.gap_core.specs.Adding.{AddsTo, AddsToList, AddsNothing, ByOne};
ghost use Rattle.gap_core.specs.Sources.{Keeps, IsPassed, IsPassedBy, IsPassedOn, item_cmp, or_no_sources};

use epc_core::Epc;
use std::alloc::{AllocError, Global};
use std::collections::BTreeMap;
use std::marker::Model;

/// What one site packed into a container is known at another one, or at the same. Sites are named by their places among
/// those that are looked at.
#[derive(Clone, Copy, Debug, PartialEq, Eq)]
pub struct Source {
    /// The place of the site at which it is known.
    pub at: usize,
    /// The place of the site that packed.
    pub from: usize,
}

/// Sources of one container, each once.
#[derive(Debug, Drop)]
pub struct Sources {
    list: Vec<Source>,
}

impl Model for Sources {
    ghost use Rattle.std.specs.Prelude.{List};
    ghost use Rattle.gap_core.specs.declared.sources.Source.{Source};

    ghost Value = { List Source };

    ghost view = { λ s. s.list.items };
}

impl Sources {
    /// One source.
    fn one(alloc: Global, source: Source) -> Result<Sources, AllocError>
        ensures { IfOk result (λ sources. sources ≡ source ∷ []) }
    {
        let mut list = Vec::new(alloc);
        list.push(source)?;
        Ok(Sources { list })
    }

    /// The sources in the order in which they were noted.
    pub fn as_slice(&self) -> &[Source]
        ensures { result.now ≡ self.now }
    {
        self.list.as_slice()
    }

    /// Notes a source, and returns whether it is new.
    fn note(&mut self, source: Source) -> Result<bool, AllocError>
        ensures added { OnOk result (AddsToList self.old self.new (λ x. source ≡ x)) }
        ensures new { IfOk result (λ new. new ≡ false
            → AddsNothing (Contains self.old) (Contains self.new)) }
    {
        if self.list.contains(&source) {
            return Ok(false);
        }
        self.list.push(source)?;
        Ok(true)
    }

    /// Notes that what is known at one place is known at another one, and returns whether any of it is new there.
    fn pass(&mut self, alloc: Global, at: usize, to: usize) -> Result<bool, AllocError>
        ensures added { OnOk result (AddsToList self.old self.new (IsPassed at to self.old)) }
        ensures new { IfOk result (λ new. new ≡ false
            → AddsNothing (Contains self.old) (Contains self.new)) }
    {
        let known = self.list.as_slice().to_vec(alloc)?;
        self.pass_each(known.as_slice(), at, to)
    }

    /// Notes of those of some sources that are known at one place that they are known at another one, and returns
    /// whether any of that is new.
    fn pass_each(&mut self, known: &[Source], at: usize, to: usize) -> Result<bool, AllocError>
        ensures added { OnOk result (AddsToList self.old self.new
            (ByOne known.now (IsPassedBy at to))) }
        ensures new { IfOk result (λ new. new ≡ false
            → AddsNothing (Contains self.old) (Contains self.new)) }
    {
        let mut some = false;
        for source in known {
            let new = self.pass_one(*source, at, to)?;
            some = either(some, new);
        }
        Ok(some)
    }

    /// Notes of a source that is known at one place that it is known at another one, and returns whether that is new.
    fn pass_one(&mut self, source: Source, at: usize, to: usize) -> Result<bool, AllocError>
        ensures added { OnOk result (AddsToList self.old self.new (IsPassedBy at to source)) }
        ensures new { IfOk result (λ new. new ≡ false
            → AddsNothing (Contains self.old) (Contains self.new)) }
    {
        if source.at == at {
            self.note(Source {
                at: to,
                from: source.from,
            })
        } else {
            Ok(false)
        }
    }
}

/// Whether one of two things is so.
pub fn either(one: bool, other: bool) -> bool
    ensures { result ≡ (one || other) }
{
    one || other
}

/// The sources of a container, none where none are known.
pub fn sources_of<'a>(index: &'a BTreeMap<Epc, Sources>, item: &Epc) -> &'a [Source]
    ensures { result.now ≡ or_no_sources (get item_cmp index.now item.now) }
{
    match index.get(item) {
        Some(sources) => sources.as_slice(),
        None => &[],
    }
}

/// Notes a source of a container.
pub fn note_source(
    alloc: Global,
    item: &Epc,
    source: Source,
    index: &mut BTreeMap<Epc, Sources>,
) -> Result<(), AllocError>
    ensures { OnOk result (AddsTo (Keeps index.old) (Keeps index.new)
        (λ m. (item.now ≡ m.0) × (source ≡ m.1))) }
{
    if let Some(sources) = index.get_mut(item) {
        sources.note(source)?;
        return Ok(());
    }
    let sources = Sources::one(alloc, source)?;
    index.insert(item.copy(alloc)?, sources)?;
    Ok(())
}

/// Notes that what is known of a container at one place is known at another one, and returns whether any of it is new
/// there.
pub fn pass_item(
    alloc: Global,
    item: &Epc,
    at: usize,
    to: usize,
    index: &mut BTreeMap<Epc, Sources>,
) -> Result<bool, AllocError>
    ensures added { OnOk result (AddsTo (Keeps index.old) (Keeps index.new)
        (IsPassedOn index.old at to item.now)) }
    ensures new { IfOk result (λ new. new ≡ false
        → AddsNothing (Keeps index.old) (Keeps index.new)) }
{
    match index.get_mut(item) {
        Some(sources) => sources.pass(alloc, at, to),
        None => Ok(false),
    }
}
