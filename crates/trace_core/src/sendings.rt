//! What events sent: a log of items with the sites that they were sent to, and each item's sites.
ghost use Rattle.std.specs.Prelude.{◌≡◌, ◌∷◌, [], ◌-◌, ◌==◌, ◌<◌, ◌&&◌, ◌||◌, ◌↔◌, ℕ, true, not, OnOk, OnErr, Contains, drop, length, take};
ghost use Rattle.std.specs.List.{flat_map};
ghost use Rattle.std.specs.Vec.{vec_len};
ghost use Rattle.trace_core.specs.PutIn.{children_in};
ghost use Rattle.trace_core.specs.Sendings.{AreDistinct, Extends, NotesSendings, Starts, Follows, SendsOn, WasSent, Goes, at_site, set_at};
ghost use Rattle.trace_core.specs.SiteSets.{has_site, sites_in};

use crate::packed::Packed;
use crate::site_sets::SiteSet;
use event_json::{Body, SiteNo};
use std::alloc::{AllocError, Global};
use std::marker::Model;

/// An item by its number, and a site that it was sent to.
#[derive(Clone, Copy, Debug)]
pub struct Sending {
    /// The item's number.
    pub item: usize,
    /// The site.
    pub site: SiteNo,
}

/// Sendings in the order in which they were found, each once, and the sites of each item by its number.
#[derive(Debug, Drop)]
pub struct Sent {
    log: Vec<Sending>,
    sites: Vec<SiteSet>,
}

impl Model for Sent {
    ghost use Rattle.std.specs.Prelude.{List};
    ghost use Rattle.trace_core.specs.declared.sendings.Sending.{Sending};
    ghost use Rattle.trace_core.specs.Sendings.{HasSites};

    ghost Value = { List Sending };

    ghost view = { λ s. s.log.items };

    ghost invariant = { λ s. HasSites s.log.items s.sites.items };
}

impl Sent {
    /// No sendings. Does not allocate.
    pub fn new(alloc: Global) -> Sent
        ensures { result ≡ [] }
    {
        Sent {
            log: Vec::new(alloc),
            sites: Vec::new(alloc),
        }
    }

    /// How many sendings there are.
    pub fn len(&self) -> usize
        ensures { result ≡ length self.now }
    {
        self.log.len()
    }

    /// The sites that the item of a number was sent to.
    pub fn sites_of(&self, item: usize) -> SiteSet
        ensures { (t : ℕ) → has_site result t ≡ true
            ↔ Contains self.now (record { item = item; site = t }) }
    {
        match self.sites.get(item) {
            Some(own) => *own,
            None => SiteSet::new(),
        }
    }

    /// Notes that an item was sent to a site. An `Err` changes nothing.
    fn note(&mut self, item: usize, site: SiteNo) -> Result<(), AllocError>
        ensures ok { OnOk result (NotesSendings self.old self.new (record {
          item = item;
          site = site;
        } ∷ [])) }
        ensures err { OnErr result (self.new ≡ self.old) }
    {
        if self.sites_of(item).has(site) {
            return Ok(());
        }
        self.log.reserve(1)?;
        make_room(&mut self.sites, item)?;
        add_site(&mut self.sites, item, site);
        self.log.push_reserved(Sending { item, site });
        Ok(())
    }

    /// Notes that items were sent to a site. After an `Err` some of that is noted.
    pub fn note_at(&mut self, items: &[usize], site: SiteNo) -> Result<(), AllocError>
        ensures ok { OnOk result (NotesSendings self.old self.new (at_site items.now site)) }
        ensures front { Extends self.old self.new }
    {
        for item in items {
            self.note(*item, site)?;
        }
        Ok(())
    }

    /// Notes that items were sent to each site of a set. After an `Err` some of that is noted.
    fn note_at_each(&mut self, items: &[usize], sites: SiteSet) -> Result<(), AllocError>
        ensures ok { OnOk result (NotesSendings self.old self.new
            (flat_map (at_site items.now) (sites_in sites))) }
        ensures front { Extends self.old self.new }
    {
        for number in 0..16 {
            if let Some(site) = sites.at(number) {
                self.note_at(items, site)?;
            }
        }
        Ok(())
    }

    /// The sites that the item of a number was sent to, none where there is no number.
    fn sites_of_parent(&self, parent: Option<usize>) -> SiteSet
        ensures { (t : ℕ) → has_site result t ≡ true ↔ WasSent self.now parent t }
    {
        match parent {
            Some(number) => self.sites_of(number),
            None => SiteSet::new(),
        }
    }

    /// Where the items of an event go: to the sites of a shipment, and else to those that the parent was sent to.
    fn destinations(&self, body: &Body, parent: Option<usize>) -> SiteSet
        ensures { (t : ℕ) → has_site result t ≡ true ↔ Goes self.now body.now parent t }
    {
        match body {
            Body::Ship { sites, .. } => SiteSet::of(sites.as_slice()),
            _ => self.sites_of_parent(parent),
        }
    }

    /// Notes the items of an event where they go. After an `Err` some of that is noted.
    fn note_starts(
        &mut self,
        body: &Body,
        parent: Option<usize>,
        items: &[usize],
    ) -> Result<(), AllocError>
        ensures ok { OnOk result (Starts items.now (Goes self.old body.now parent) self.old
            self.new) }
        ensures front { Extends self.old self.new }
    {
        let sites = self.destinations(body, parent);
        self.note_at_each(items, sites)
    }

    /// Notes what lies in the items of the sendings from a place on, and in that, each at its site. Items may lie in
    /// each other: each sending is noted once. After an `Err` some of that is noted.
    pub fn follow(&mut self, packed: &Packed, from: usize) -> Result<(), AllocError>
        ensures ok { OnOk result (Follows (children_in packed.now) from self.old self.new) }
        ensures front { Extends self.old self.new }
    {
        let mut place = from;
        while place < self.len() {
            let sending = self.as_slice()[place];
            self.note_at(packed.children_of(sending.item), sending.site)?;
            place += 1;
        }
        Ok(())
    }

    /// Notes the items of an event where they go, and all that lies in them. After an `Err` some of that is noted,
    /// behind all that was there.
    pub fn note_event(
        &mut self,
        packed: &Packed,
        body: &Body,
        parent: Option<usize>,
        items: &[usize],
    ) -> Result<(), AllocError>
        ensures ok { OnOk result (SendsOn (children_in packed.now) items.now
            (Goes self.old body.now parent) self.old self.new) }
        ensures front { Extends self.old self.new }
    {
        let from = self.len();
        self.note_starts(body, parent, items)?;
        self.follow(packed, from)
    }

    /// The sendings in order.
    pub fn as_slice(&self) -> &[Sending]
        ensures members { result.now ≡ self.now }
        ensures once { AreDistinct self.now }
    {
        self.log.as_slice()
    }

    /// The sendings from a place on.
    pub fn since(&self, place: usize) -> &[Sending]
        ensures members { result.now ≡ drop place self.now }
        ensures once { AreDistinct self.now }
    {
        let all = self.as_slice();
        if place <= all.len() {
            &all[place..]
        } else {
            &[]
        }
    }

    /// Keeps the first `kept` alone. Does not allocate.
    pub fn truncate(&mut self, kept: usize)
        ensures { self.new ≡ take kept self.old }
    {
        while kept < self.len() {
            self.pop();
        }
    }

    /// Takes the last one away. Does not allocate.
    fn pop(&mut self)
        ensures { self.new ≡ take (length self.old - 1) self.old }
    {
        if let Some(last) = self.log.pop() {
            forget_site(&mut self.sites, last.item, last.site);
        }
    }
}

/// Adds a site to an item's.
fn add_site(sites: &mut Vec<SiteSet>, item: usize, site: SiteNo)
    requires { item < vec_len sites.old }
    ensures { (n t : ℕ) → has_site (set_at sites.new.items n) t
        ≡ (((item == n) && (site == t)) || has_site (set_at sites.old.items n) t) }
{
    sites[item].insert(site);
}

/// Adds items without sites, up to this one.
fn make_room(sites: &mut Vec<SiteSet>, item: usize) -> Result<(), AllocError>
    ensures room { OnOk result (item < vec_len sites.new) }
    ensures same { (n t : ℕ) → has_site (set_at sites.new.items n) t
        ≡ has_site (set_at sites.old.items n) t }
{
    while sites.len() <= item {
        sites.push(SiteSet::new())?;
    }
    Ok(())
}

/// Takes a site away from an item's, if it has any.
fn forget_site(sites: &mut Vec<SiteSet>, item: usize, site: SiteNo)
    ensures { (n t : ℕ) → has_site (set_at sites.new.items n) t
        ≡ (not ((item == n) && (site == t)) && has_site (set_at sites.old.items n) t) }
{
    if item < sites.len() {
        sites[item].remove(site);
    }
}
