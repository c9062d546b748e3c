ghost use Rattle.std.specs.Prelude.{◌≡◌, ◌<◌, ◌++◌, ◌∷◌, ℕ, false, not, ◌&&◌, [], List, length, if◌then◌else◌, IfOk, OnOk};
ghost use Rattle.std.specs.List.Sorted.{IsStrictlyIncreasing};
ghost use Rattle.list_checks.specs.Sorted.{collected};
ghost use Rattle.rv32im.specs.declared.instructions.RegSet.{RegSet};
ghost use Rattle.object_graph.specs.{Lookups.{IsSomeGraph}, declared.parts.Graph.{Graph}};
ghost use Rattle.code_blocks.specs.{Numbers.{starts_of}, declared.parts.Code.{Code}};
ghost use Rattle.dataflow.specs.{Tables.{IsTableOf}, Exposed.{AreExposed, mark_at}};
ghost use Rattle.placement_candidates.specs.{Overlaid.{AreOverlaidObjects}, Found.{AreSited, AreFree}};

use crate::border_registers::registers_at_borders;
use crate::region_sites::sited_objects;
use code_blocks::Code;
use dataflow::{LiveTable, exposed_objects};
use object_graph::Graph;
use region_former::RegionTable;
use std::alloc::{AllocError, Global};

/// The numbers of the objects that may be overlaid, ascending: those whose addresses are nowhere in memory, that have
/// sites, all of them in blocks with regions, and whose addresses no register may hold that is live where control
/// enters a region.
///
/// It fails only where no memory was left, which is always so of 2 ^ 32 objects or blocks.
pub fn overlaid_objects(
    alloc: Global,
    code: &Code,
    graph: &Graph,
    live: &LiveTable,
    regions: &RegionTable,
) -> Result<Vec<u32>, AllocError>
    requires ascending { IsStrictlyIncreasing (starts_of code.now) }
    requires graph { IsSomeGraph graph.now }
    requires live { IsTableOf code.now live.now }
    ensures { IfOk result (λ objects. AreOverlaidObjects code.now graph.now regions.now objects.items) }
{
    let sited = sited_objects(alloc, code, graph, regions)?;
    // where addresses may come is asked of all units, which a program without overlay need not pay for
    if !has_marked(&sited) {
        return Ok(Vec::new(alloc));
    }
    let asked = registers_at_borders(alloc, code, live, regions)?;
    let exposed = exposed_objects(alloc, code, graph, &asked)?;
    let free = free_objects(alloc, &sited, &exposed)?;
    numbers_of(alloc, &free)
}

/// Whether something is marked.
fn has_marked(marks: &[bool]) -> bool
    ensures { result ≡ false → (o : ℕ) → o < length marks.now → mark_at marks.now o ≡ false }
{
    for object in 0..marks.len() {
        if marks[object] {
            return true;
        }
    }
    false
}

/// Marks the objects that are sited and aren't exposed.
fn free_objects(alloc: Global, sited: &[bool], exposed: &[bool]) -> Result<Vec<bool>, AllocError>
    requires { length exposed.now ≡ length sited.now }
    ensures { IfOk result (λ free. (c : Code) (g : Graph) (regions : List ℕ) (asked : List RegSet) → AreSited c g regions sited.now → AreExposed c g asked exposed.now → AreFree c g regions asked (length sited.now) free.items) }
{
    let mut free = Vec::new(alloc);
    for object in 0..sited.len() {
        free.push(is_free(sited[object], exposed[object]))?;
    }
    Ok(free)
}

/// Whether an object is, if it is sited, or exposed.
fn is_free(sited: bool, exposed: bool) -> bool
    ensures { result ≡ (sited && not exposed) }
{
    sited && !exposed
}

/// How many marks there are.
fn count_of(marks: &[bool]) -> Result<u32, AllocError>
    ensures { IfOk result (λ count. count ≡ length marks.now) }
{
    match u32::try_from(marks.len()) {
        Ok(count) => Ok(count),
        Err(_) => Err(AllocError),
    }
}

/// The numbers of the objects that are marked, ascending.
fn numbers_of(alloc: Global, marks: &[bool]) -> Result<Vec<u32>, AllocError>
    ensures { IfOk result (λ numbers. numbers.items ≡ collected (mark_at marks.now) (λ o. o) (length marks.now)) }
{
    let count = count_of(marks)?;
    let mut numbers = Vec::new(alloc);
    for object in 0..count {
        push_marked(&mut numbers, object, marks[object as usize])?;
    }
    Ok(numbers)
}

/// Adds a number, if it is marked.
fn push_marked(numbers: &mut Vec<u32>, object: u32, marked: bool) -> Result<(), AllocError>
    ensures { OnOk result (numbers.new.items ≡ numbers.old.items ++ (if marked then object ∷ [] else [])) }
{
    if marked {
        numbers.push(object)?;
    }
    Ok(())
}
