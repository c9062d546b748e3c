ghost use Rattle.std.specs.Prelude.{◌≡◌, ℕ, ◌<◌, ◌==◌, true, false, ◌&&◌, length, MatchOption};
ghost use Rattle.std.specs.List.{list_any};
ghost use Rattle.object_graph.specs.{declared.parts.Site.{Site}, Graphs.{object_at, same_site}, Lookups.{AreLaidOut}, Gathered.{gives, AreInOrder, site_place}};
ghost use Rattle.loaded_file.specs.Ranges.{inside};

use crate::parts::{Graph, Object, Site};
use crate::placed::find_placed;

impl Graph {
    ghost use Rattle.std.specs.Prelude.{◌≡◌, ℕ, ◌<◌, ◌==◌, true, false, length, MatchOption};
    ghost use Rattle.std.specs.List.{list_any};
    ghost use Rattle.loaded_file.specs.Ranges.{inside};
    ghost use Rattle.object_graph.specs.{Graphs.{object_at, same_site}, Lookups.{IsSomeGraph, stands_at}};

    /// The number of the object that has the byte at `address`, if one has it.
    pub fn object_at(&self, address: u32) -> Option<u32>
        requires { IsSomeGraph self.now }
        ensures { MatchOption result ((k : ℕ) → k < length self.now.objects.items → inside (object_at self.now.objects.items k).home (object_at self.now.objects.items k).size address ≡ false) (λ k. (k < length self.now.objects.items) × (inside (object_at self.now.objects.items k).home (object_at self.now.objects.items k).size address ≡ true)) }
    {
        find_object(&self.objects, address)
    }

    /// The site whose instruction stands at `address`, if there is one.
    pub fn site_at(&self, address: u32) -> Option<Site>
        requires { IsSomeGraph self.now }
        ensures { MatchOption result (list_any (stands_at address) self.now.sites.items ≡ false) (λ s. (list_any (same_site s) self.now.sites.items ≡ true) × (s.at ≡ address)) }
    {
        find_site(&self.sites, address)
    }
}

/// The place of the object that has the byte at `address`, if one has it. The objects ascend, share no byte, and
/// have bytes.
fn find_object(objects: &[Object], address: u32) -> Option<u32>
    requires { AreLaidOut objects.now }
    ensures { MatchOption result ((k : ℕ) → k < length objects.now → inside (object_at objects.now k).home (object_at objects.now k).size address ≡ false) (λ k. (k < length objects.now) × (inside (object_at objects.now k).home (object_at objects.now k).size address ≡ true)) }
{
    let count = objects.partition_point(|object| object.home <= address);
    if count == 0 || !has_byte(&objects[count - 1], address) {
        return None;
    }
    Some((count - 1) as u32)
}

/// The byte at `address` is the object's.
fn has_byte(object: &Object, address: u32) -> bool
    ensures { result ≡ inside object.now.home object.now.size address }
{
    let end = u64::from(object.home) + u64::from(object.size);
    object.home <= address && u64::from(address) < end
}

/// The site at `address`, if there is one. The sites stand by address, and no two meet.
pub(crate) fn find_site(sites: &[Site], address: u32) -> Option<Site>
    requires { AreInOrder site_place sites.now }
    ensures { (s : Site) → gives same_site s result ≡ (list_any (same_site s) sites.now && (s.at == address)) }
{
    find_placed(sites, address)
}
