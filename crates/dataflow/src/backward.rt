// The edges of a program against the flow of control.
ghost use Rattle.std.specs.Prelude.{◌≡◌, ◌+◌, length, IfOk, OnOk};
ghost use Rattle.std.specs.List.Sorted.{IsStrictlyIncreasing};
ghost use Rattle.reach_graph.specs.Reaching.{plain_rows};
ghost use Rattle.code_blocks.specs.Numbers.{starts_of};
ghost use Rattle.dataflow.specs.BackEdges.{Adds, BackEdges, AreBackEdges, HasNone};

use crate::edges::{add_arrivals, add_block};
use crate::living::{hub_of, no_edges};
use code_blocks::Code;
use reach_graph::Edge;
use std::alloc::{AllocError, Global};

/// The edges against the flow of control, along which all registers pass: to each block from those to which direct edges
/// lead from it. Behind the blocks one more node stands for every jump to an address in a register: edges lead to it from
/// the blocks at indirect leaders, and from it to the blocks that end in such a jump.
///
/// It fails only where no memory was left, which is always so of 2 ^ 32 blocks.
pub fn back_edges(alloc: Global, code: &Code) -> Result<Vec<Vec<Edge>>, AllocError>
    requires { IsStrictlyIncreasing (starts_of code.now) }
    ensures { IfOk result (λ rows. AreBackEdges code.now (length code.now.blocks.items) (plain_rows rows.items)) }
{
    let hub = hub_of(code)?;
    let mut rows = no_edges(alloc, hub)?;
    add_back(&mut rows, code, hub)?;
    Ok(rows)
}

/// Adds them to rows without edges.
fn add_back(rows: &mut [Vec<Edge>], code: &Code, hub: u32) -> Result<(), AllocError>
    requires ascending { IsStrictlyIncreasing (starts_of code.now) }
    requires nodes { length rows.old ≡ hub + 1 }
    requires bare { HasNone (plain_rows rows.old) }
    requires hub { hub ≡ length code.now.blocks.items }
    ensures { OnOk result (AreBackEdges code.now hub (plain_rows rows.new)) }
{
    add_blocks_back(rows, code, hub)?;
    add_arrivals(rows, code, hub)?;
    Ok(())
}

/// Adds those to all blocks.
fn add_blocks_back(rows: &mut [Vec<Edge>], code: &Code, hub: u32) -> Result<(), AllocError>
    requires ascending { IsStrictlyIncreasing (starts_of code.now) }
    requires nodes { length rows.old ≡ hub + 1 }
    requires hub { hub ≡ length code.now.blocks.items }
    ensures { OnOk result (Adds (BackEdges code.now hub hub) (plain_rows rows.old) (plain_rows rows.new)) }
{
    for block in 0..hub {
        add_block(rows, code, block, hub, u64::MAX)?;
    }
    Ok(())
}
