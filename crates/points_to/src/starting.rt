ghost use Rattle.std.specs.Prelude.{◌≡◌, ◌+◌, ◌≤◌, length, IfOk};
ghost use Rattle.reach_graph.specs.Reaching.{AreInside, plain_rows};
ghost use Rattle.points_to.specs.{Nodes.{node_count}, Tables.{AreBare, Begins, IsReached, plain}};

use crate::nodes::Nodes;
use crate::reached::Reached;
use reach_graph::{Edge, one_mark, propagate};
use std::alloc::{AllocError, Global};

/// What mark `k` reaches from the `k`-th of `count` nodes from `first` on.
pub(crate) fn reached_from(
    alloc: Global,
    nodes: Nodes,
    rows: &[Vec<Edge>],
    first: u32,
    count: u32,
) -> Result<Reached, AllocError>
    requires room { length rows.now ≡ node_count nodes.blocks nodes.objects }
    requires inside { AreInside (plain_rows rows.now) (node_count nodes.blocks nodes.objects) }
    requires last { first + count ≤ node_count nodes.blocks nodes.objects }
    requires few { count ≤ 64 }
    ensures { IfOk result (λ r. IsReached (plain_rows rows.now) nodes.blocks first count (plain r)) }
{
    let mut marks = vec![in alloc; 0; nodes.count() as usize]?;
    begin_marks(&mut marks, first, count);
    propagate(alloc, rows, &mut marks)?;
    let reached = Reached::of(alloc, nodes, &marks)?;
    Ok(reached)
}

/// Sets mark `k` at the `k`-th of `count` nodes from `first` on.
fn begin_marks(marks: &mut [u64], first: u32, count: u32)
    requires last { first + count ≤ length marks.old }
    requires few { count ≤ 64 }
    requires bare { AreBare marks.old }
    ensures { Begins first count marks.new }
{
    for k in 0..count {
        marks[first as usize + k as usize] = one_mark(k);
    }
}
