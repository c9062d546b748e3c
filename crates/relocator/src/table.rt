ghost use Rattle.std.specs.Prelude.{◌≡◌, ℕ, ◌+◌, ◌*◌, ◌%◌, ◌<◌, ◌≤◌, List, [], ◌∷◌, length, replicate, set, slice_index, slice_index_or, IfOk};
ghost use Rattle.object_graph.specs.declared.parts.Graph.{Graph};
ghost use Rattle.cell_values.specs.Objects.{object_of};
ghost use Rattle.relocator.specs.{declared.slots.Slot.{Slot}, Placing.{rows_of, IsTable}, Laying.{CanStandAt, CanPut, CanPutAll, with_pair}};

use crate::slots::{Slot, filled};
use object_graph::Graph;
use placement_programme::VarName;
use std::alloc::{AllocError, Global};

/// The place of each object in regions 0 to `regions`, with these slots. It fails only where no memory was left.
pub(crate) fn table(
    alloc: Global,
    graph: &Graph,
    regions: u32,
    slots: &[Slot],
) -> Result<Vec<Vec<u32>>, AllocError>
    requires grain { 0 < graph.now.grain }
    requires slots { CanPutAll graph.now regions slots.now }
    ensures { IfOk result (λ rows. IsTable graph.now regions slots.now (rows_of rows.items)) }
{
    let mut rows = homes(alloc, graph, regions)?;
    for k in (0..slots.len()).rev() {
        put(&mut rows, graph, regions, &slots[k]);
    }
    Ok(rows)
}

/// The table where nothing is taken.
fn homes(alloc: Global, graph: &Graph, regions: u32) -> Result<Vec<Vec<u32>>, AllocError>
    ensures { IfOk result (λ rows. IsTable graph.now regions [] (rows_of rows.items)) }
{
    let mut rows = Vec::new(alloc);
    for object in &graph.objects {
        rows.push(filled(alloc, object.home, regions as usize + 1)?)?;
    }
    Ok(rows)
}

/// One slot more, before all others.
fn put(rows: &mut Vec<Vec<u32>>, graph: &Graph, regions: u32, slot: &Slot)
    requires grain { 0 < graph.now.grain }
    requires slot { CanPut graph.now regions slot.now.at slot.now.name }
    requires table { (slots : List Slot) × IsTable graph.now regions slots (rows_of rows.old.items) }
    ensures { (slots : List Slot) → IsTable graph.now regions slots (rows_of rows.old.items) → IsTable graph.now regions (slot.now ∷ slots) (rows_of rows.new.items) }
{
    match slot.name {
        VarName::StaticData { object } => {
            let place = place_in(graph, slot.at, object);
            put_row(rows, object as usize, regions, place);
        }
        VarName::OverlayData { region, object } => {
            let place = place_in(graph, slot.at, object);
            put_entry(rows, object as usize, region as usize, place);
        }
        VarName::KeptData { pair, object } => {
            let place = place_in(graph, slot.at, object);
            put_pair(rows, object as usize, pair as usize, place);
        }
        VarName::StaticCode { first: _, last: _ } => {}
        VarName::OverlayCode {
            region: _,
            first: _,
            last: _,
        } => {}
    }
}

/// The place of an object in a slot that begins at `at`: as its home modulo the grain.
fn place_in(graph: &Graph, at: u32, object: u32) -> u32
    requires grain { 0 < graph.now.grain }
    requires room { CanStandAt graph.now at object }
    ensures { result ≡ at + (object_of graph.now object).home % graph.now.grain }
{
    at + graph.objects[object as usize].home % graph.grain
}

/// One place in all regions.
fn put_row(rows: &mut Vec<Vec<u32>>, object: usize, regions: u32, place: u32)
    requires below { object < length rows.old.items }
    requires width { length (slice_index_or (rows_of rows.old.items) object []) ≡ regions + 1 }
    ensures { rows_of rows.new.items ≡ set (rows_of rows.old.items) object (replicate (regions + 1) place) }
{
    fill(&mut rows[object], place);
}

fn fill(row: &mut Vec<u32>, place: u32)
    ensures { row.new.items ≡ replicate (length row.old.items) place }
{
    row.fill(place);
}

/// One place in one region.
fn put_entry(rows: &mut Vec<Vec<u32>>, object: usize, region: usize, place: u32)
    requires row { object < length rows.old.items }
    requires column { region < length (slice_index_or (rows_of rows.old.items) object []) }
    ensures { rows_of rows.new.items ≡ set (rows_of rows.old.items) object (set (slice_index_or (rows_of rows.old.items) object []) region place) }
{
    put_at(&mut rows[object], region, place);
}

fn put_at(row: &mut Vec<u32>, region: usize, place: u32)
    requires { region < length row.old.items }
    ensures { row.new.items ≡ set row.old.items region place }
{
    row[region] = place;
}

/// One place in both regions of a pair.
fn put_pair(rows: &mut Vec<Vec<u32>>, object: usize, pair: usize, place: u32)
    requires row { object < length rows.old.items }
    requires some { 1 ≤ pair }
    requires columns { 2 * pair < length (slice_index_or (rows_of rows.old.items) object []) }
    ensures { rows_of rows.new.items ≡ set (rows_of rows.old.items) object (with_pair (slice_index_or (rows_of rows.old.items) object []) pair place) }
{
    put_twice(&mut rows[object], pair, place);
}

fn put_twice(row: &mut Vec<u32>, pair: usize, place: u32)
    requires some { 1 ≤ pair }
    requires columns { 2 * pair < length row.old.items }
    ensures { row.new.items ≡ with_pair row.old.items pair place }
{
    row[2 * pair - 1] = place;
    row[2 * pair] = place;
}
