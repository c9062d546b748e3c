ghost use Rattle.std.specs.Prelude.{◌≡◌, ◌+◌, ◌<◌, ◌≤◌, ◌^◌, length, OnOk};
ghost use Rattle.reach_graph.specs.Reaching.{plain_rows};
ghost use Rattle.points_to.specs.Nodes.{Adds, Upto, OneEdge, PlaceEdge, RegisterEdge, RowEdge, node_count, full_edge};

use crate::flows::Places;
use crate::nodes::Nodes;
use reach_graph::Edge;
use std::alloc::AllocError;

/// Adds an edge.
pub(crate) fn push(graph_edges: &mut [Vec<Edge>], from: u32, to: u32) -> Result<(), AllocError>
    requires { from < length graph_edges.old }
    ensures { OnOk result (Adds (OneEdge from to) (plain_rows graph_edges.old) (plain_rows graph_edges.new)) }
{
    graph_edges[from as usize].push(full_edge(to))?;
    Ok(())
}

/// An edge along which all marks pass.
fn full_edge(to: u32) -> Edge
    ensures { result ≡ full_edge to }
{
    Edge { to, mask: u64::MAX }
}

/// Adds the edges from a node to the places of a set, whose nodes begin at `base`.
pub(crate) fn push_places(
    graph_edges: &mut [Vec<Edge>],
    from: u32,
    base: u32,
    places: Places,
) -> Result<(), AllocError>
    requires from { from < length graph_edges.old }
    requires base { base + 32 < 2 ^ 32 }
    ensures { OnOk result (Adds (Upto 32 (PlaceEdge from base places)) (plain_rows graph_edges.old) (plain_rows graph_edges.new)) }
{
    for y in 0..32 {
        push_place(graph_edges, from, base, places, y)?;
    }
    Ok(())
}

/// Adds the edge to one of them, if the set has it.
fn push_place(
    graph_edges: &mut [Vec<Edge>],
    from: u32,
    base: u32,
    places: Places,
    y: u8,
) -> Result<(), AllocError>
    requires y { y < 32 }
    requires from { from < length graph_edges.old }
    requires base { base + 32 < 2 ^ 32 }
    ensures { OnOk result (Adds (PlaceEdge from base places y) (plain_rows graph_edges.old) (plain_rows graph_edges.new)) }
{
    if places.has(y) {
        push(graph_edges, from, base + u32::from(y))?;
        return Ok(());
    }
    Ok(())
}

/// Adds an edge from each register to itself, from the nodes that begin at `from` to those that begin at `to`.
pub(crate) fn push_registers(
    graph_edges: &mut [Vec<Edge>],
    from: u32,
    to: u32,
) -> Result<(), AllocError>
    requires from { from + 32 < length graph_edges.old }
    requires fits { from + 32 < 2 ^ 32 }
    requires to { to + 32 < 2 ^ 32 }
    ensures { OnOk result (Adds (Upto 32 (RegisterEdge from to)) (plain_rows graph_edges.old) (plain_rows graph_edges.new)) }
{
    for y in 1..32 {
        push(graph_edges, from + y, to + y)?;
    }
    Ok(())
}

/// Adds the edges from the registers at the beginning of a block, by the rows of its table.
pub(crate) fn push_rows(
    graph_edges: &mut [Vec<Edge>],
    nodes: Nodes,
    block: u32,
    rows: &[Places],
) -> Result<(), AllocError>
    requires room { length graph_edges.old ≡ node_count nodes.blocks nodes.objects }
    requires block { block < nodes.blocks }
    requires whole { length rows.now ≡ 32 }
    ensures { OnOk result (Adds (Upto 32 (RowEdge nodes.blocks block rows.now)) (plain_rows graph_edges.old) (plain_rows graph_edges.new)) }
{
    for x in 1..32 {
        push_places(
            graph_edges,
            nodes.entry(block) + x,
            nodes.end(block),
            rows[x as usize],
        )?;
    }
    Ok(())
}
