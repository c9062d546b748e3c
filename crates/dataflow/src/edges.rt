ghost use Rattle.std.specs.Prelude.{◌≡◌, ◌<◌, ◌+◌, ℕ, length, slice_index_or, OnOk};
ghost use Rattle.std.specs.List.Sorted.{IsStrictlyIncreasing};
ghost use Rattle.reach_graph.specs.Reaching.{plain_rows};
ghost use Rattle.code_blocks.specs.{Edges.{is_indirect_end}, Numbers.{starts_of, start_at}, Leads.{IsBlockOf}};
ghost use Rattle.dataflow.specs.BackEdges.{Adds, OneEdge, ListEdges, DirectEdges, HubEdges, MaskEdges, ArrivalEdges};

use code_blocks::{Code, End};
use reach_graph::Edge;
use std::alloc::AllocError;

/// Adds an edge.
fn add_edge(rows: &mut [Vec<Edge>], from: u32, to: u32, mask: u64) -> Result<(), AllocError>
    requires from { from < length rows.old }
    requires to { to < length rows.old }
    ensures { OnOk result (Adds (OneEdge from to mask) (plain_rows rows.old) (plain_rows rows.new)) }
{
    rows[from as usize].push(Edge { to, mask })?;
    Ok(())
}

/// Adds the edges that lead back to a block. `hub` is the node of the indirect jumps.
pub(crate) fn add_block(
    rows: &mut [Vec<Edge>],
    code: &Code,
    block: u32,
    hub: u32,
    mask: u64,
) -> Result<(), AllocError>
    requires ascending { IsStrictlyIncreasing (starts_of code.now) }
    requires nodes { length rows.old ≡ hub + 1 }
    requires hub { hub ≡ length code.now.blocks.items }
    requires block { block < hub }
    ensures { OnOk result (Adds (MaskEdges code.now hub block mask) (plain_rows rows.old) (plain_rows rows.new)) }
{
    add_direct(rows, code, block, mask)?;
    add_hub(rows, hub, code, block, mask)?;
    Ok(())
}

/// Adds those from the blocks to which direct edges lead.
fn add_direct(rows: &mut [Vec<Edge>], code: &Code, block: u32, mask: u64) -> Result<(), AllocError>
    requires ascending { IsStrictlyIncreasing (starts_of code.now) }
    requires nodes { length rows.old ≡ length code.now.blocks.items + 1 }
    requires block { block < length code.now.blocks.items }
    ensures { OnOk result (Adds (DirectEdges code.now block mask) (plain_rows rows.old) (plain_rows rows.new)) }
{
    let successors = code.successors(block);
    add_each(rows, successors.as_slice(), block, mask)?;
    Ok(())
}

/// Adds an edge from each of some nodes to one node.
fn add_each(rows: &mut [Vec<Edge>], nodes: &[u32], to: u32, mask: u64) -> Result<(), AllocError>
    requires nodes { (i : ℕ) → i < length nodes.now → slice_index_or nodes.now i 0 < length rows.old }
    requires to { to < length rows.old }
    ensures { OnOk result (Adds (ListEdges nodes.now (length nodes.now) to mask) (plain_rows rows.old) (plain_rows rows.new)) }
{
    for i in 0..nodes.len() {
        add_edge(rows, nodes[i], to, mask)?;
    }
    Ok(())
}

/// Adds the one from the node of the indirect jumps, where the block ends in one.
fn add_hub(
    rows: &mut [Vec<Edge>],
    hub: u32,
    code: &Code,
    block: u32,
    mask: u64,
) -> Result<(), AllocError>
    requires nodes { length rows.old ≡ hub + 1 }
    requires hub { hub ≡ length code.now.blocks.items }
    requires block { block < hub }
    ensures { OnOk result (Adds (HubEdges code.now hub block mask) (plain_rows rows.old) (plain_rows rows.new)) }
{
    if is_indirect(code.blocks[block as usize].end) {
        add_edge(rows, hub, block, mask)?;
    }
    Ok(())
}

/// Whether an end leads to an address in a register.
fn is_indirect(end: End) -> bool
    ensures { result ≡ is_indirect_end end }
{
    match end {
        End::Indirect { .. } => true,
        End::Fall { .. }
        | End::Branch { .. }
        | End::Jump { .. }
        | End::Call { .. }
        | End::Tail { .. }
        | End::Stop => false,
    }
}

/// Adds those from the blocks that an indirect jump may reach to the node of the indirect jumps.
pub(crate) fn add_arrivals(rows: &mut [Vec<Edge>], code: &Code, hub: u32) -> Result<(), AllocError>
    requires ascending { IsStrictlyIncreasing (starts_of code.now) }
    requires nodes { length rows.old ≡ hub + 1 }
    requires hub { hub ≡ length code.now.blocks.items }
    ensures { OnOk result (Adds (ArrivalEdges code.now hub (length code.now.indirect.items)) (plain_rows rows.old) (plain_rows rows.new)) }
{
    for i in 0..code.indirect.len() {
        add_arrival(rows, code, code.indirect[i], hub)?;
    }
    Ok(())
}

/// Adds the one from the block at an address, if one begins there.
fn add_arrival(rows: &mut [Vec<Edge>], code: &Code, leader: u32, hub: u32) -> Result<(), AllocError>
    requires ascending { IsStrictlyIncreasing (starts_of code.now) }
    requires nodes { length rows.old ≡ hub + 1 }
    requires hub { hub ≡ length code.now.blocks.items }
    ensures { OnOk result (Adds (λ f t x. IsBlockOf code.now f × (leader ≡ start_at code.now f) × (t ≡ hub)) (plain_rows rows.old) (plain_rows rows.new)) }
{
    if let Some(block) = code.block_at(leader) {
        add_edge(rows, block, hub, u64::MAX)?;
    }
    Ok(())
}
