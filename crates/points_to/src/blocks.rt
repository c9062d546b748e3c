ghost use Rattle.std.specs.Prelude.{◌≡◌, ◌<◌, ◌≤◌, length, replicate, [], IfOk, OnOk};
ghost use Rattle.std.specs.List.{All};
ghost use Rattle.std.specs.List.Sorted.{IsStrictlyIncreasing};
ghost use Rattle.object_graph.specs.Lookups.{IsSomeGraph};
ghost use Rattle.code_blocks.specs.{Edges.{is_indirect_end}, Numbers.{starts_of, end_at}};
ghost use Rattle.reach_graph.specs.Reaching.{plain_rows};
ghost use Rattle.points_to.specs.Nodes.{Adds, AreEdges, Upto, StepEdge, NextEdges, LeaveEdges, BlockEdges, ArrivalEdge, WordEdge, AllEdges, node_count};

use crate::edges::{push, push_registers, push_rows};
use crate::flows::{NO_PLACES, Places};
use crate::nodes::Nodes;
use crate::sources::push_units;
use code_blocks::{Code, End};
use object_graph::Graph;
use reach_graph::Edge;
use std::alloc::{AllocError, Global};

/// Adds the edges from the end of a block to the beginning of each of some blocks.
fn push_steps(
    graph_edges: &mut [Vec<Edge>],
    nodes: Nodes,
    block: u32,
    numbers: &[u32],
) -> Result<(), AllocError>
    requires numbers { All (λ d. d < nodes.blocks) numbers.now }
    requires room { length graph_edges.old ≡ node_count nodes.blocks nodes.objects }
    requires block { block < nodes.blocks }
    ensures { OnOk result (Adds (Upto (length numbers.now) (StepEdge nodes.blocks block numbers.now)) (plain_rows graph_edges.old) (plain_rows graph_edges.new)) }
{
    for i in 0..numbers.len() {
        push_registers(graph_edges, nodes.end(block), nodes.entry(numbers[i]))?;
    }
    Ok(())
}

/// Adds those along the direct edges of a block.
fn push_next(
    graph_edges: &mut [Vec<Edge>],
    nodes: Nodes,
    code: &Code,
    block: u32,
) -> Result<(), AllocError>
    requires room { length graph_edges.old ≡ node_count nodes.blocks nodes.objects }
    requires block { block < nodes.blocks }
    requires blocks { nodes.blocks ≡ length code.now.blocks.items }
    requires ascending { IsStrictlyIncreasing (starts_of code.now) }
    ensures { OnOk result (Adds (NextEdges code.now nodes.blocks block) (plain_rows graph_edges.old) (plain_rows graph_edges.new)) }
{
    let numbers = code.successors(block);
    push_steps(graph_edges, nodes, block, numbers.as_slice())?;
    Ok(())
}

/// Whether an end leads to an address in a register.
fn is_indirect(end: &End) -> bool
    ensures { result ≡ is_indirect_end end.now }
{
    match end {
        End::Indirect { .. } => true,
        End::Fall { .. } => false,
        End::Branch { .. } => false,
        End::Jump { .. } => false,
        End::Call { .. } => false,
        End::Tail { .. } => false,
        End::Stop => false,
    }
}

/// Adds those from the end of a block to the way to any indirect leader, if it may lead there.
fn push_leaving(
    graph_edges: &mut [Vec<Edge>],
    nodes: Nodes,
    block: u32,
    code: &Code,
) -> Result<(), AllocError>
    requires room { length graph_edges.old ≡ node_count nodes.blocks nodes.objects }
    requires block { block < nodes.blocks }
    requires blocks { nodes.blocks ≡ length code.now.blocks.items }
    ensures { OnOk result (Adds (LeaveEdges code.now nodes.blocks block) (plain_rows graph_edges.old) (plain_rows graph_edges.new)) }
{
    if is_indirect(&code.blocks[block as usize].end) {
        push_registers(graph_edges, nodes.end(block), nodes.hub())?;
        return Ok(());
    }
    Ok(())
}

/// Adds all edges that begin in a block. `rows` is a table to work in.
fn push_block(
    graph_edges: &mut [Vec<Edge>],
    nodes: Nodes,
    code: &Code,
    graph: &Graph,
    block: u32,
    rows: &mut [Places],
) -> Result<(), AllocError>
    requires room { length graph_edges.old ≡ node_count nodes.blocks nodes.objects }
    requires block { block < nodes.blocks }
    requires blocks { nodes.blocks ≡ length code.now.blocks.items }
    requires objects { nodes.objects ≡ length graph.now.objects.items }
    requires ascending { IsStrictlyIncreasing (starts_of code.now) }
    requires graph { IsSomeGraph graph.now }
    requires whole { length rows.old ≡ 32 }
    ensures { OnOk result (Adds (BlockEdges code.now graph.now nodes.blocks block) (plain_rows graph_edges.old) (plain_rows graph_edges.new)) }
{
    push_units(
        graph_edges,
        nodes,
        graph,
        block,
        &code.blocks[block as usize].units,
        rows,
    )?;
    push_rows(graph_edges, nodes, block, rows)?;
    push_next(graph_edges, nodes, code, block)?;
    push_leaving(graph_edges, nodes, block, code)?;
    push(graph_edges, nodes.end(block), nodes.memory())?;
    Ok(())
}

/// Adds those of all blocks.
fn push_blocks(
    graph_edges: &mut [Vec<Edge>],
    nodes: Nodes,
    code: &Code,
    graph: &Graph,
) -> Result<(), AllocError>
    requires room { length graph_edges.old ≡ node_count nodes.blocks nodes.objects }
    requires blocks { nodes.blocks ≡ length code.now.blocks.items }
    requires objects { nodes.objects ≡ length graph.now.objects.items }
    requires ascending { IsStrictlyIncreasing (starts_of code.now) }
    requires graph { IsSomeGraph graph.now }
    ensures { OnOk result (Adds (Upto (length code.now.blocks.items) (BlockEdges code.now graph.now nodes.blocks)) (plain_rows graph_edges.old) (plain_rows graph_edges.new)) }
{
    let mut rows = [NO_PLACES; 32];
    for block in 0..nodes.blocks {
        push_block(graph_edges, nodes, code, graph, block, &mut rows)?;
    }
    Ok(())
}

/// Adds the edges from the way to any indirect leader to the block at an address.
fn push_arrival(
    graph_edges: &mut [Vec<Edge>],
    code: &Code,
    nodes: Nodes,
    i: usize,
) -> Result<(), AllocError>
    requires room { length graph_edges.old ≡ node_count nodes.blocks nodes.objects }
    requires i { i < length code.now.indirect.items }
    requires blocks { nodes.blocks ≡ length code.now.blocks.items }
    requires ascending { IsStrictlyIncreasing (starts_of code.now) }
    ensures { OnOk result (Adds (ArrivalEdge code.now nodes.blocks i) (plain_rows graph_edges.old) (plain_rows graph_edges.new)) }
{
    if let Some(block) = code.block_at(code.indirect[i]) {
        push_registers(graph_edges, nodes.hub(), nodes.entry(block))?;
        return Ok(());
    }
    Ok(())
}

/// Adds those to all indirect leaders.
fn push_arrivals(graph_edges: &mut [Vec<Edge>], nodes: Nodes, code: &Code) -> Result<(), AllocError>
    requires room { length graph_edges.old ≡ node_count nodes.blocks nodes.objects }
    requires blocks { nodes.blocks ≡ length code.now.blocks.items }
    requires ascending { IsStrictlyIncreasing (starts_of code.now) }
    ensures { OnOk result (Adds (Upto (length code.now.indirect.items) (ArrivalEdge code.now nodes.blocks)) (plain_rows graph_edges.old) (plain_rows graph_edges.new)) }
{
    for i in 0..code.indirect.len() {
        push_arrival(graph_edges, code, nodes, i)?;
    }
    Ok(())
}

/// Adds an edge to memory from the object of each word of data.
fn push_words(graph_edges: &mut [Vec<Edge>], nodes: Nodes, graph: &Graph) -> Result<(), AllocError>
    requires room { length graph_edges.old ≡ node_count nodes.blocks nodes.objects }
    requires objects { nodes.objects ≡ length graph.now.objects.items }
    requires graph { IsSomeGraph graph.now }
    ensures { OnOk result (Adds (Upto (length graph.now.data_words.items) (WordEdge graph.now nodes.blocks)) (plain_rows graph_edges.old) (plain_rows graph_edges.new)) }
{
    for i in 0..graph.data_words.len() {
        push(
            graph_edges,
            nodes.object(graph.data_words[i].object),
            nodes.memory(),
        )?;
    }
    Ok(())
}

/// Adds all edges of a program.
fn push_all(
    graph_edges: &mut [Vec<Edge>],
    code: &Code,
    graph: &Graph,
    nodes: Nodes,
) -> Result<(), AllocError>
    requires room { length graph_edges.old ≡ node_count nodes.blocks nodes.objects }
    requires ascending { IsStrictlyIncreasing (starts_of code.now) }
    requires graph { IsSomeGraph graph.now }
    requires blocks { nodes.blocks ≡ length code.now.blocks.items }
    requires objects { nodes.objects ≡ length graph.now.objects.items }
    ensures { OnOk result (Adds (AllEdges code.now graph.now nodes.blocks) (plain_rows graph_edges.old) (plain_rows graph_edges.new)) }
{
    push_blocks(graph_edges, nodes, code, graph)?;
    push_arrivals(graph_edges, nodes, code)?;
    push_words(graph_edges, nodes, graph)?;
    Ok(())
}

/// As many nodes without edges.
fn no_edges(alloc: Global, count: u32) -> Result<Vec<Vec<Edge>>, AllocError>
    ensures { IfOk result (λ rows. plain_rows rows.items ≡ replicate count []) }
{
    let mut rows = Vec::new(alloc);
    for _ in 0..count {
        rows.push(Vec::new(alloc))?;
    }
    Ok(rows)
}

/// The edges of a program's graph: for each node those to which they lead.
pub(crate) fn edges_of(
    alloc: Global,
    nodes: Nodes,
    code: &Code,
    graph: &Graph,
) -> Result<Vec<Vec<Edge>>, AllocError>
    requires blocks { nodes.blocks ≡ length code.now.blocks.items }
    requires objects { nodes.objects ≡ length graph.now.objects.items }
    requires ascending { IsStrictlyIncreasing (starts_of code.now) }
    requires graph { IsSomeGraph graph.now }
    ensures { IfOk result (λ rows. AreEdges code.now graph.now nodes.blocks nodes.objects (plain_rows rows.items)) }
{
    let mut rows = no_edges(alloc, nodes.count())?;
    push_all(&mut rows, code, graph, nodes)?;
    Ok(rows)
}
