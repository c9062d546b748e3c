//! Where objects are moved to, by their bytes at home.
ghost use Rattle.std.specs.Prelude.{◌≡◌, ℕ, ◌<◌, ◌==◌, ◌&&◌, Some, None, length, IfOk, OnOk, if◌then◌else◌};
ghost use Rattle.list_checks.specs.First.{◌or_else◌};
ghost use Rattle.cell_values.specs.Objects.{object_of};
ghost use Rattle.relink_core.specs.{Making.{start_place, HasStarts, AreOfGraph}, MovedRanges.{place_of_range, HaveRanges}};

use crate::standing::start_place;
use object_graph::Graph;
use relocator::Places;
use std::alloc::{AllocError, Global};
use std::collections::BTreeMap;

/// The places of moved objects by where they stand at home, and by how many bytes they have.
pub(crate) type MovedRanges = BTreeMap<(u32, u32), u32>;

/// Where an object stands at home, and how many bytes it has.
fn bytes_of(graph: &Graph, object: u32) -> (u32, u32)
    requires { object < length graph.now.objects.items }
    ensures { result ≡ ((object_of graph.now object).home, (object_of graph.now object).size) }
{
    let found = &graph.objects[object as usize];
    (found.home, found.size)
}

/// Adds the place of an object, if no earlier one has the same bytes.
fn add_range(
    ranges: &mut MovedRanges,
    graph: &Graph,
    places: &Places,
    object: u32,
) -> Result<(), AllocError>
    requires object { object < length graph.now.objects.items }
    requires starts { HasStarts graph.now places.now }
    ensures { OnOk result ((home n : ℕ) → place_of_range ranges.new home n ≡ place_of_range ranges.old home n or_else (if ((object_of graph.now object).home == home) && ((object_of graph.now object).size == n) then Some (start_place places.now object) else None)) }
{
    let bytes = bytes_of(graph, object);
    if !ranges.contains_key(&bytes) {
        ranges.insert(bytes, start_place(graph, places, object))?;
    }
    Ok(())
}

/// The places of some objects, the first one's where two have the same bytes. It fails only where no memory was left.
pub(crate) fn moved_ranges(
    alloc: Global,
    graph: &Graph,
    places: &Places,
    objects: &[u32],
) -> Result<MovedRanges, AllocError>
    requires listed { AreOfGraph graph.now objects.now }
    requires starts { HasStarts graph.now places.now }
    ensures { IfOk result (HaveRanges graph.now places.now objects.now) }
{
    let mut ranges = BTreeMap::new(alloc);
    for object in objects {
        add_range(&mut ranges, graph, places, *object)?;
    }
    Ok(ranges)
}

/// The place of the object that has `size` bytes at `home`, if one of them does. The time grows with the logarithm of
/// their number.
pub(crate) fn moved_place(ranges: &MovedRanges, home: u32, size: u32) -> Option<u32>
    ensures { result ≡ place_of_range ranges.now home size }
{
    ranges.get(&(home, size)).copied()
}
