ghost use Rattle.std.specs.Prelude.{◌≡◌, ◌↔◌, ◌⊎◌, ◌<◌, ◌≤◌, ℕ, length, IfOk};
ghost use Rattle.std.specs.List.Sorted.{IsStrictlyIncreasing};
ghost use Rattle.rv32im.specs.declared.instructions.RegSet.{RegSet};
ghost use Rattle.object_graph.specs.Lookups.{IsSomeGraph};
ghost use Rattle.code_blocks.specs.{Numbers.{starts_of}, Leads.{units_at}};
ghost use Rattle.reach_graph.specs.Reaching.{HasMark, word_at};
ghost use Rattle.dataflow.specs.{Points.{IsHolder}, Exposed.{AreExposed, IsAsked}, Transfers.{AddsMarks, IsFound, LeadsInto}, Spreading.{AreSound, AreWords}};

use crate::backward::back_edges;
use crate::holders::holders;
use crate::marking::{mark_made, mark_words};
use crate::spreading::{Exposure, units_of};
use crate::transfers::registers_before;
use code_blocks::Code;
use object_graph::Graph;
use reach_graph::joined;
use rv32im::RegSet;
use std::alloc::{AllocError, Global};

/// Which objects are exposed: an address of them may stand in memory, or in a register that is asked for where its block
/// begins. `asked` has a set of registers for each block, by its number.
///
/// It fails only where no memory was left, which is always so of 2 ^ 32 blocks. The time grows with the numbers of units,
/// blocks, edges and objects, not with their products: a block is looked at again only when a register was added behind it.
pub fn exposed_objects(
    alloc: Global,
    code: &Code,
    graph: &Graph,
    asked: &[RegSet],
) -> Result<Vec<bool>, AllocError>
    requires ascending { IsStrictlyIncreasing (starts_of code.now) }
    requires graph { IsSomeGraph graph.now }
    ensures { IfOk result (λ marks. AreExposed code.now graph.now asked.now marks.items) }
{
    let rows = back_edges(alloc, code)?;
    let mut exposure = asked_exposure(alloc, code, graph, asked)?;
    exposure.spread(alloc, code, graph, &rows)?;
    let mut marks = vec![in alloc; false; graph.objects.len()]?;
    mark_all(&mut marks, code, graph, &exposure.behind);
    Ok(marks)
}

/// Marks the objects whose addresses words of data hold, or some block makes where they may come to a marked place behind
/// it.
fn mark_all(marks: &mut [bool], code: &Code, graph: &Graph, behind: &[u64])
    requires graph { IsSomeGraph graph.now }
    requires objects { length marks.old ≡ length graph.now.objects.items }
    requires blocks { length code.now.blocks.items ≤ length behind.now }
    requires memory { (b : ℕ) → b < length behind.now → HasMark (word_at behind.now b) 0 }
    ensures { AddsMarks (IsFound code.now graph.now behind.now) marks.old marks.new }
{
    mark_words(marks, graph);
    mark_made(marks, code, graph, behind);
}

/// The registers before each block that are asked for or that it stores.
fn asked_exposure(
    alloc: Global,
    code: &Code,
    graph: &Graph,
    asked: &[RegSet],
) -> Result<Exposure, AllocError>
    requires graph { IsSomeGraph graph.now }
    ensures words { IfOk result (λ e. AreWords (length code.now.blocks.items) e.behind.items e.before.items) }
    ensures sound { IfOk result (λ e. AreSound code.now graph.now asked.now e.behind.items e.before.items) }
{
    let mut before = Vec::new(alloc);
    for block in 0..code.blocks.len() {
        before.push(asked_before(code, graph, asked, block))?;
    }
    before.push(0)?;
    let behind = vec![in alloc; MEMORY; before.len()]?;
    Ok(Exposure { behind, before })
}

/// Memory alone.
const MEMORY: u64 = 1;

/// The registers before one of them.
fn asked_before(code: &Code, graph: &Graph, asked: &[RegSet], block: usize) -> u64
    requires graph { IsSomeGraph graph.now }
    ensures { (x : ℕ) → HasMark result x ↔ (IsHolder x × (IsAsked asked.now block x ⊎ LeadsInto graph.now.sites.items (units_at code.now block) 1 x)) }
{
    joined(
        holders(bits_of(asked, block)),
        registers_before(units_of(code, block), graph, MEMORY),
    )
}

/// The registers that are asked for where a block begins.
fn bits_of(asked: &[RegSet], block: usize) -> u64
    ensures { (x : ℕ) → HasMark result x ↔ IsAsked asked.now block x }
{
    match asked.get(block) {
        Some(set) => u64::from(set.bits),
        None => 0,
    }
}
