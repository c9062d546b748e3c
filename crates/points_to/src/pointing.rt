ghost use Rattle.std.specs.Prelude.{◌≡◌, ◌+◌, ◌/◌, length, map, IfOk};
ghost use Rattle.std.specs.List.Sorted.{IsStrictlyIncreasing};
ghost use Rattle.reach_graph.specs.Reaching.{AreInside, plain_rows};
ghost use Rattle.object_graph.specs.Lookups.{IsSomeGraph};
ghost use Rattle.code_blocks.specs.Numbers.{starts_of};
ghost use Rattle.points_to.specs.{Nodes.{node_count}, Tables.{AreGroups, IsTableOf, plain}};

use crate::blocks::edges_of;
use crate::nodes::Nodes;
use crate::reached::Reached;
use crate::starting::reached_from;
use crate::table::PointsTable;
use code_blocks::Code;
use object_graph::Graph;
use reach_graph::Edge;
use std::alloc::{AllocError, Global};

/// Which registers may hold addresses of each object where each block of a program begins, and which objects escape:
/// an address of them may stand in memory.
///
/// It fails only where no memory was left, which is always so of more than 2 ^ 25 blocks or 2 ^ 30 objects. For each 64
/// objects the time grows with the numbers of blocks and objects, and with the number of edges of the nodes that they reach,
/// times how often new marks come to a node.
pub fn points(alloc: Global, code: &Code, graph: &Graph) -> Result<PointsTable, AllocError>
    requires ascending { IsStrictlyIncreasing (starts_of code.now) }
    requires graph { IsSomeGraph graph.now }
    ensures { IfOk result (IsTableOf code.now graph.now) }
{
    let nodes = Nodes::of(code, graph)?;
    let rows = edges_of(alloc, nodes, code, graph)?;
    let loads = reached_from(alloc, nodes, &rows, nodes.loaded(), 1)?;
    let groups = reached_by_objects(alloc, nodes, &rows)?;
    let leaders = leaders_of(alloc, code)?;
    Ok(PointsTable {
        leaders,
        loads,
        groups,
    })
}

/// Where the blocks begin.
fn leaders_of(alloc: Global, code: &Code) -> Result<Vec<u32>, AllocError>
    ensures { IfOk result (λ leaders. leaders.items ≡ starts_of code.now) }
{
    let mut leaders = Vec::new(alloc);
    for block in &code.blocks {
        leaders.push(block.start)?;
    }
    Ok(leaders)
}

/// What the objects reach, 64 at a time.
fn reached_by_objects(
    alloc: Global,
    nodes: Nodes,
    rows: &[Vec<Edge>],
) -> Result<Vec<Reached>, AllocError>
    requires room { length rows.now ≡ node_count nodes.blocks nodes.objects }
    requires inside { AreInside (plain_rows rows.now) (node_count nodes.blocks nodes.objects) }
    ensures { IfOk result (λ groups. AreGroups (plain_rows rows.now) nodes.blocks nodes.objects ((nodes.objects + 63) / 64) (map plain groups.items)) }
{
    let mut groups = Vec::new(alloc);
    for j in 0..(nodes.objects + 63) / 64 {
        let count = (nodes.objects - 64 * j).min(64);
        let reached = reached_from(alloc, nodes, rows, nodes.object(64 * j), count)?;
        groups.push(reached)?;
    }
    Ok(groups)
}
