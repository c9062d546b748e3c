ghost use Rattle.std.specs.Prelude.{◌≡◌, ◌<◌, ◌≤◌, List, length, OnOk, IfSome};
ghost use Rattle.object_graph.specs.{Lookups.{IsSomeGraph}, declared.parts.Site.{Site}};
ghost use Rattle.code_blocks.specs.declared.parts.Unit.{Unit};
ghost use Rattle.dataflow.specs.Points.{site_at};
ghost use Rattle.points_to.specs.{Rows.{AreRows}, Nodes.{Adds, SourceEdges, UnitEdges, node_count}};
ghost use Rattle.reach_graph.specs.Reaching.{plain_rows};

use crate::edges::push_places;
use crate::flows::{Places, begin, go_back};
use crate::nodes::Nodes;
use code_blocks::Unit;
use dataflow::{loads, made, written};
use object_graph::{Graph, Site};
use reach_graph::Edge;
use std::alloc::AllocError;

/// Adds the edges of what a unit makes or loads, where the rows tell where the units behind it lead.
fn push_sources(
    graph_edges: &mut [Vec<Edge>],
    nodes: Nodes,
    block: u32,
    unit: &Unit,
    site: Option<Site>,
    rows: &[Places],
) -> Result<(), AllocError>
    requires room { length graph_edges.old ≡ node_count nodes.blocks nodes.objects }
    requires block { block < nodes.blocks }
    requires object { IfSome site (λ s. s.object < nodes.objects) }
    requires whole { length rows.now ≡ 32 }
    ensures { (sites : List Site) (us : List Unit) → site_at sites unit.now.at ≡ site → AreRows sites us rows.now → OnOk result (Adds (SourceEdges nodes.blocks block sites unit.now us) (plain_rows graph_edges.old) (plain_rows graph_edges.new)) }
{
    let to = written(unit.instr);
    if to == 0 || to > 31 {
        return Ok(());
    }
    if let Some(object) = made(site, unit.instr) {
        push_places(
            graph_edges,
            nodes.object(object),
            nodes.end(block),
            rows[to as usize],
        )?;
        return Ok(());
    }
    if loads(unit.instr) {
        push_places(
            graph_edges,
            nodes.loaded(),
            nodes.end(block),
            rows[to as usize],
        )?;
        return Ok(());
    }
    Ok(())
}

/// Adds the edges of what the units of a block make or load, and leaves in `rows` where the units lead.
pub(crate) fn push_units(
    graph_edges: &mut [Vec<Edge>],
    nodes: Nodes,
    graph: &Graph,
    block: u32,
    units: &[Unit],
    rows: &mut [Places],
) -> Result<(), AllocError>
    requires room { length graph_edges.old ≡ node_count nodes.blocks nodes.objects }
    requires block { block < nodes.blocks }
    requires graph { IsSomeGraph graph.now }
    requires objects { nodes.objects ≡ length graph.now.objects.items }
    requires whole { length rows.old ≡ 32 }
    ensures edges { OnOk result (Adds (UnitEdges nodes.blocks block graph.now.sites.items units.now) (plain_rows graph_edges.old) (plain_rows graph_edges.new)) }
    ensures rows { OnOk result (AreRows graph.now.sites.items units.now rows.new) }
{
    begin(rows);
    for k in (0..units.len()).rev() {
        let unit = &units[k];
        let site = graph.site_at(unit.at);
        push_sources(graph_edges, nodes, block, unit, site, rows)?;
        go_back(rows, unit, site);
    }
    Ok(())
}
