//! The traced sites, each with the destination texts that stand for it.

ghost use Rattle.std.specs.Prelude.{◌≡◌, ◌≢◌, ◌≤◌, is_some, ◌↔◌, ◌++◌, ◌∷◌, [], Some, None, IsTrue, IfOk, IfErr, OnOk, OnErr, map, length, slice_get, option_map, option_and_then};
ghost use Rattle.std.specs.List.{list_any};
ghost use Rattle.event_json.specs.Names.{sites_fault_name};
ghost use Rattle.event_json.specs.Sites.{named, addressed, sites_fault, AreSites, IsCause};

use crate::limits::{MAX_ADDRESSES, MAX_SITES};
use crate::site_checks::{are_plain, is_site_name, repeats};
use crate::site_entries::{Entry, addresses_of, copy_entries, place_addressed, place_named};
use crate::site_numbers::SiteNo;
use std::alloc::{AllocError, AllocFailed, Global};
use std::error::Error;
use std::fmt;
use std::marker::Model;

/// Why a site isn't added.
#[derive(Clone, Copy, Debug, PartialEq, Eq)]
pub enum SitesFault {
    /// Memory ran out.
    NoMemory,
    /// The name isn't 1 to 16 letters, digits, `_` or `-`.
    BadName,
    /// Another site has the name.
    NameTaken,
    /// There are 16 sites, or more than 16 addresses.
    TooMany,
    /// An address isn't plain.
    BadAddress,
    /// An address stands twice, or is another site's.
    AddressTaken,
}

impl SitesFault {
    /// The fault by its name.
    pub fn name(self) -> &'static str
        ensures { result.now ≡ sites_fault_name self }
    {
        match self {
            SitesFault::NoMemory => "NoMemory",
            SitesFault::BadName => "BadName",
            SitesFault::NameTaken => "NameTaken",
            SitesFault::TooMany => "TooMany",
            SitesFault::BadAddress => "BadAddress",
            SitesFault::AddressTaken => "AddressTaken",
        }
    }
}

impl fmt::Display for SitesFault {
    ghost use Rattle.std.specs.Prelude.{Some};
    ghost use Rattle.event_json.specs.Names.{sites_fault_name};

    ghost output = { λ fault. Some (sites_fault_name fault) };

    fn fmt<W: fmt::Write>(&self, f: &mut fmt::Formatter<W>) -> fmt::Result {
        f.write_str(self.name())
    }
}

impl Error for SitesFault {}

impl From<AllocError> for SitesFault {
    ghost use Rattle.event_json.specs.declared.site_lists.SitesFault.TheVariants.{NoMemory};

    ghost from_gives = { λ _ e. e ≡ NoMemory };

    fn from(_error: AllocError) -> SitesFault {
        SitesFault::NoMemory
    }
}

impl<T: Drop> From<AllocFailed<T>> for SitesFault {
    ghost use Rattle.event_json.specs.declared.site_lists.SitesFault.TheVariants.{NoMemory};

    ghost from_gives = { λ _ e. e ≡ NoMemory };

    fn from(_error: AllocFailed<T>) -> SitesFault {
        SitesFault::NoMemory
    }
}

/// The traced sites, in the order of their numbers: at most 16, each with at most 16 addresses. No
/// two have one name, and no address stands twice.
#[derive(Debug)]
pub struct Sites {
    alloc: Global,
    sites: Vec<Entry>,
}

// It is written out, so that a caller does not prove again how the entries of a list are dropped.
impl Drop for Sites {
    fn drop(self) {
        let Sites { alloc: _, sites: _ } = self;
    }
}

impl Model for Sites {
    ghost use Rattle.std.specs.Prelude.{List};
    ghost use Rattle.event_json.specs.Sites.{Site, AreSites};

    ghost Value = { List Site };

    ghost view = { λ s. s.sites.items };

    ghost invariant = { λ s. AreSites s.sites.items };
}

/// Two lists are equal where they have the same sites in the same order, each with the same addresses in order.
impl PartialEq for Sites {
    ghost use Rattle.std.specs.Cmp as Cmp;
    ghost use Rattle.std.specs.Cmp.Lexicographic.{pointwise, lists_equiv};
    ghost use Rattle.event_json.specs.Contents.{same_site, site_equiv};

    ghost eq = { pointwise same_site };

    ghost laws = { Cmp.partial_equiv_from_equiv (lists_equiv site_equiv) };

    fn eq(&self, other: &Sites) -> bool {
        self.sites.as_slice() == other.sites.as_slice()
    }
}

impl Eq for Sites {
    ghost use Rattle.std.specs.Cmp.Lexicographic.{lists_equiv};
    ghost use Rattle.event_json.specs.Contents.{site_equiv};

    ghost laws = { lists_equiv site_equiv };
}

impl Sites {
    /// No sites. Does not allocate; what is added comes from the allocator.
    pub fn new(alloc: Global) -> Sites
        ensures { result ≡ [] }
    {
        Sites {
            alloc,
            sites: Vec::new(alloc),
        }
    }

    /// How many sites there are, 0 to 16.
    pub fn len(&self) -> u64
        ensures count { result ≡ length self.now }
        ensures in_order { AreSites self.now }
    {
        self.sites.len() as u64
    }

    /// Whether there is no site.
    pub fn is_empty(&self) -> bool
        ensures { IsTrue result ↔ (self.now ≡ []) }
    {
        self.sites.is_empty()
    }

    /// Whether there are at least two sites.
    pub fn ready(&self) -> bool
        ensures { IsTrue result ↔ (2 ≤ length self.now) }
    {
        self.sites.len() >= 2
    }

    /// The name of a site, `None` where there is none of this number.
    pub fn name(&self, site: SiteNo) -> Option<&str>
        ensures { option_map (λ t. t.now) result ≡ option_map (λ s. s.name)
            (slice_get self.now site) }
    {
        match self.sites.get(site.number() as usize) {
            Some(entry) => Some(entry.name()),
            None => None,
        }
    }

    /// The address of a site at this place, from 0; `None` where there is none.
    pub fn address(&self, site: SiteNo, place: u64) -> Option<&str>
        ensures { option_map (λ t. t.now) result
            ≡ option_and_then (λ s. slice_get s.addresses place) (slice_get self.now site) }
    {
        let Some(entry) = self.sites.get(site.number() as usize) else {
            return None;
        };
        match entry.addresses().get(place as usize) {
            Some(address) => Some(address.as_str()),
            None => None,
        }
    }

    /// The site of this name.
    pub fn find(&self, name: &str) -> Option<SiteNo>
        ensures { result ≡ named self.now name.now }
    {
        match place_named(self.sites.as_slice(), name) {
            Some(place) => SiteNo::of(place as u64),
            None => None,
        }
    }

    /// The site that has this address.
    pub(crate) fn addressed(&self, text: &str) -> Option<SiteNo>
        ensures { result ≡ addressed self.now text.now }
    {
        match place_addressed(self.sites.as_slice(), text) {
            Some(place) => SiteNo::of(place as u64),
            None => None,
        }
    }

    /// Why no site of this name and these addresses can be added.
    #[tactic(auto, unfolding(crate::specs::Sites::sites_fault))]
    fn fault_of(&self, name: &str, addresses: &[&str]) -> Option<SitesFault>
        ensures { result ≡ sites_fault self.now name.now (map (λ a. a.now) addresses.now) }
    {
        if !is_site_name(name) {
            return Some(SitesFault::BadName);
        }
        if self.find(name).is_some() {
            return Some(SitesFault::NameTaken);
        }
        if self.sites.len() >= MAX_SITES || addresses.len() > MAX_ADDRESSES {
            return Some(SitesFault::TooMany);
        }
        if !are_plain(addresses) {
            return Some(SitesFault::BadAddress);
        }
        if some_addressed(self, addresses) || repeats(addresses) {
            return Some(SitesFault::AddressTaken);
        }
        None
    }

    /// Adds a site at the end, and returns its number.
    ///
    /// # Errors
    /// The first of `BadName`, `NameTaken`, `TooMany`, `BadAddress` and `AddressTaken` that there is
    /// cause for, each found without allocating, or `NoMemory` where there is cause for none. The
    /// sites then are as they were.
    pub fn add(&mut self, name: &str, addresses: &[&str]) -> Result<SiteNo, SitesFault>
        // Not covered: the first reason, `sites_fault`, stands by its own words.
        ensures free { OnOk result (sites_fault self.old name.now (map (λ a. a.now) addresses.now)
            ≡ None) }
        ensures number { IfOk result (λ site. site ≡ length self.old) }
        ensures ok { OnOk result (self.new ≡ self.old ++ record {
          name = name.now;
          addresses = map (λ a. a.now) addresses.now;
        } ∷ []) }
        ensures cause { IfErr result (λ fault.
            IsCause fault (sites_fault self.old name.now (map (λ a. a.now) addresses.now))) }
        ensures err { OnErr result (self.new ≡ self.old) }
    {
        if let Some(fault) = self.fault_of(name, addresses) {
            return Err(fault);
        }
        let Some(site) = SiteNo::of(self.len()) else {
            return Err(SitesFault::TooMany);
        };
        let addresses = addresses_of(self.alloc, addresses)?;
        let name = String::from_str(self.alloc, name)?;
        self.sites.push(Entry::new(name, addresses))?;
        Ok(site)
    }

    /// An equal list of sites.
    pub fn copy(&self, alloc: Global) -> Result<Sites, AllocError>
        ensures { IfOk result (λ s. s ≡ self.now) }
    {
        let sites = copy_entries(alloc, self.sites.as_slice())?;
        Ok(Sites { alloc, sites })
    }
}

/// Whether some text is an address of a site.
fn some_addressed(sites: &Sites, texts: &[&str]) -> bool
    ensures { result ≡ list_any (λ a. is_some (addressed sites.now a))
        (map (λ t. t.now) texts.now) }
{
    for text in texts {
        if sites.addressed(*text).is_some() {
            return true;
        }
    }
    false
}
