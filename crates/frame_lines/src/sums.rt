//! The sum of a frame, by which a line that was cut or changed isn't taken.
ghost use Rattle.std.specs.Prelude.{◌≡◌, ◌++◌, ◌∷◌, [], ℕ, List, Some, IfOk, slice_get, string_bytes};
ghost use Rattle.sha2.specs.Hashers.{Holds256};
ghost use Rattle.event_json.specs.Sites.{Site};
ghost use Rattle.frame_lines.specs.Sums.{site_text, sites_text, sum_of_text, addresses_text};

use crate::chains::ChainId;
use event_json::{MAX_ADDRESSES, SiteNo, Sites};
use recall_text::texts::name_of;
use sha2::{Digest, Sha256};
use std::alloc::{AllocError, Global};

/// How many bytes of the digest are told.
const SUM_BYTES: usize = 8;

/// The sum of what is told in this text, in a chain of these sites: 16 hexadecimal digits in lower case.
///
/// # Errors
/// Out of memory.
pub(crate) fn sum_of_text(
    alloc: Global,
    sites: &Sites,
    chain: &ChainId,
    text: &str,
) -> Result<String, AllocError>
    ensures { IfOk result (λ s. string_bytes s ≡ sum_of_text sites.now chain.now text.now) }
{
    let mut hasher = Sha256::new();
    add_line(&mut hasher, chain.as_str());
    add_sites(&mut hasher, sites);
    add_line(&mut hasher, "");
    hasher.update(text);
    let digest = hasher.finalize();
    hex::encode(alloc, &digest[..SUM_BYTES])
}

/// Adds a text and LF to what is digested.
fn add_line(hasher: &mut Sha256, text: &str)
    ensures { (m : List ℕ) → Holds256 hasher.old m
        → Holds256 hasher.new (m ++ (text.now ++ 10 ∷ [])) }
{
    hasher.update(text);
    hasher.update("\n");
}

/// Adds the list of sites to what is digested.
fn add_sites(hasher: &mut Sha256, sites: &Sites)
    ensures { (m : List ℕ) → Holds256 hasher.old m
        → Holds256 hasher.new (m ++ sites_text sites.now) }
{
    for number in 0..sites.len() {
        let Some(site) = SiteNo::of(number) else {
            unreachable!()
        };
        add_site(hasher, sites, site);
    }
}

/// Adds a site of the list to what is digested.
fn add_site(hasher: &mut Sha256, sites: &Sites, site: SiteNo)
    ensures { (m : List ℕ) (s : Site) → slice_get sites.now site ≡ Some s → Holds256 hasher.old m
        → Holds256 hasher.new (m ++ site_text s) }
{
    add_line(hasher, name_of(sites, site));
    add_addresses(hasher, sites, site);
    add_line(hasher, "");
}

/// Adds the addresses of a site of the list to what is digested.
fn add_addresses(hasher: &mut Sha256, sites: &Sites, site: SiteNo)
    ensures { (m : List ℕ) (s : Site) → slice_get sites.now site ≡ Some s → Holds256 hasher.old m
        → Holds256 hasher.new (m ++ addresses_text s.addresses) }
{
    // There are at most 16 addresses.
    let _few = sites.len();
    for place in 0..MAX_ADDRESSES as u64 {
        if let Some(address) = sites.address(site, place) {
            add_line(hasher, address);
        }
    }
}
