ghost use Rattle.std.specs.Prelude.{◌≡◌, ℕ, Bool, ◌==◌, ◌&&◌, ◌++◌, IfOk};
ghost use Rattle.std.specs.List.{list_any};
ghost use Rattle.object_graph.specs.Gathered.{listed, passes, AreSeparate, AreInOrder, site_place, word_place};

use crate::parts::{DataWord, Site};
use std::alloc::AllocError;

/// A word of four bytes that stands at an address.
pub(crate) trait Placed: Copy {
    /// Where it stands.
    ghost place: { Self → ℕ };

    /// The address at which it stands.
    fn address(&self) -> u32
        ensures { result ≡ place self.now };
}

impl Placed for Site {
    ghost place = { site_place };

    fn address(&self) -> u32 {
        self.at
    }
}

impl Placed for DataWord {
    ghost place = { word_place };

    fn address(&self) -> u32 {
        self.at
    }
}

/// Adds one to a list, if there is one.
pub(crate) fn push_some<T: Placed>(list: &mut Vec<T>, found: Option<T>) -> Result<(), AllocError>
    ensures { IfOk result (λ _. list.new.items ≡ list.old.items ++ listed found) }
{
    if let Some(one) = found {
        list.push(one)?;
    }
    Ok(())
}

/// Puts a list, of which no two meet, in the order of its addresses.
pub(crate) fn sort_placed<T: Placed>(list: &mut Vec<T>)
    requires { AreSeparate T.place list.old.items }
    ensures disjoint { AreInOrder T.place list.new.items }
    ensures same { (test : T → Bool) → list_any test list.new.items ≡ list_any test list.old.items }
{
    list.sort_unstable_by_key(|one| one.address());
}

/// The one at `address`, if one stands there. They stand by address, and no two meet.
///
/// The time grows with the logarithm of their number.
pub(crate) fn find_placed<T: Placed>(list: &[T], address: u32) -> Option<T>
    requires { AreInOrder T.place list.now }
    ensures { (test : T → Bool) → passes test result ≡ list_any (λ x. test x && (T.place x == address)) list.now }
{
    let place = list.partition_point(|one| one.address() < address);
    if place == list.len() || list[place].address() != address {
        return None;
    }
    Some(list[place])
}
