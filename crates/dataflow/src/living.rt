ghost use Rattle.std.specs.Prelude.{◌≡◌, ◌+◌, length, IfOk};
ghost use Rattle.std.specs.List.Sorted.{IsStrictlyIncreasing};
ghost use Rattle.reach_graph.specs.Reaching.{plain_rows};
ghost use Rattle.code_blocks.specs.Numbers.{starts_of};
ghost use Rattle.dataflow.specs.{BackEdges.{HasNone}, Tables.{IsTableOf}};

use crate::flow::find_live;
use crate::table::LiveTable;
use code_blocks::Code;
use reach_graph::Edge;
use std::alloc::{AllocError, Global};

/// The registers that are live where each block of a program begins: those that some path of units from there, along
/// direct and indirect edges, uses before it defines them.
///
/// It fails only where no memory was left, which is always so of 2 ^ 32 blocks. The time grows with the number of
/// units, blocks and edges.
pub fn live(alloc: Global, code: &Code) -> Result<LiveTable, AllocError>
    requires { IsStrictlyIncreasing (starts_of code.now) }
    ensures { IfOk result (IsTableOf code.now) }
{
    let hub = hub_of(code)?;
    let mut rows = no_edges(alloc, hub)?;
    let mut live = vec![in alloc; 0; hub as usize + 1]?;
    find_live(alloc, code, hub, &mut rows, &mut live)?;
    Ok(LiveTable {
        leaders: code.starts(alloc)?,
        live,
    })
}

/// The number of the node of the indirect jumps: that of the blocks.
pub(crate) fn hub_of(code: &Code) -> Result<u32, AllocError>
    ensures { IfOk result (λ hub. hub ≡ length code.now.blocks.items) }
{
    match u32::try_from(code.blocks.len()) {
        Ok(hub) => Ok(hub),
        Err(_) => Err(AllocError),
    }
}

/// A row without edges for each block and one for the indirect jumps.
pub(crate) fn no_edges(alloc: Global, hub: u32) -> Result<Vec<Vec<Edge>>, AllocError>
    ensures size { IfOk result (λ rows. length rows.items ≡ hub + 1) }
    ensures bare { IfOk result (λ rows. HasNone (plain_rows rows.items)) }
{
    let nodes = hub as usize + 1;
    let mut rows = Vec::new(alloc);
    for _ in 0..nodes {
        rows.push(Vec::new(alloc))?;
    }
    Ok(rows)
}
