ghost use Rattle.std.specs.Prelude.{◌≡◌, ◌<◌, ◌+◌, length, replicate, OnOk};
ghost use Rattle.std.specs.List.Sorted.{IsStrictlyIncreasing};
ghost use Rattle.reach_graph.specs.Reaching.{plain_rows};
ghost use Rattle.code_blocks.specs.Numbers.{starts_of};
ghost use Rattle.dataflow.specs.{BackEdges.{Adds, BlockEdges, AreMarks, HasNone}, Tables.{AreLive}};

use crate::edges::{add_arrivals, add_block};
use crate::summaries::summary_of;
use code_blocks::Code;
use reach_graph::{Edge, propagate};
use std::alloc::{AllocError, Global};

/// Finds the live registers of each block, over `rows` without edges and `words` without marks, one for each block
/// and one for the indirect jumps.
pub(crate) fn find_live(
    alloc: Global,
    code: &Code,
    hub: u32,
    rows: &mut [Vec<Edge>],
    words: &mut [u64],
) -> Result<(), AllocError>
    requires ascending { IsStrictlyIncreasing (starts_of code.now) }
    requires hub { hub ≡ length code.now.blocks.items }
    requires nodes { length rows.old ≡ hub + 1 }
    requires bare { HasNone (plain_rows rows.old) }
    requires words { words.old ≡ replicate (hub + 1) 0 }
    ensures { OnOk result (AreLive code.now words.new) }
{
    add_blocks(rows, words, code, hub)?;
    add_arrivals(rows, code, hub)?;
    propagate(alloc, rows, words)?;
    Ok(())
}

/// Adds the edges that lead back to the blocks, and the marks that begin in each.
fn add_blocks(
    rows: &mut [Vec<Edge>],
    words: &mut [u64],
    code: &Code,
    hub: u32,
) -> Result<(), AllocError>
    requires ascending { IsStrictlyIncreasing (starts_of code.now) }
    requires hub { hub ≡ length code.now.blocks.items }
    requires nodes { length rows.old ≡ hub + 1 }
    requires words { words.old ≡ replicate (hub + 1) 0 }
    ensures edges { OnOk result (Adds (BlockEdges code.now hub hub) (plain_rows rows.old) (plain_rows rows.new)) }
    ensures marks { OnOk result (AreMarks code.now hub words.new) }
{
    for block in 0..hub {
        let done = summary_of(&code.blocks[block as usize]);
        words[block as usize] = done.used;
        add_block(rows, code, block, hub, done.kept)?;
    }
    Ok(())
}
