ghost use Rattle.std.specs.Prelude.{◌≡◌, ◌<◌, ◌↔◌, ℕ, length, OnOk};
ghost use Rattle.reach_graph.specs.{Reaching.{HasMark, word_at, edge_in, plain_rows, AreInside, Reaches}, Propagation.{IsGrown, IsPropagated, IsRow}};

use crate::edges::Edge;
use crate::marks::joined;
use crate::queue::Queue;
use std::alloc::{AllocError, Global};

/// Lets the marks of all nodes pass along the edges, as far as they come. `rows` has the edges of each node, and
/// `marks` a word of marks for each, of which bit `k` is mark `k`.
///
/// It fails only where no memory was left, and then the marks are some of those that come there. The time grows with
/// the number of edges of the nodes that a mark reaches, times how often new marks come to a node.
pub fn propagate(alloc: Global, rows: &[Vec<Edge>], marks: &mut [u64]) -> Result<(), AllocError>
    requires one_each { length rows.now ≡ length marks.old }
    requires inside { AreInside (plain_rows rows.now) (length marks.old) }
    ensures { OnOk result ((n k : ℕ) → HasMark (word_at marks.new n) k ↔ Reaches (plain_rows rows.now) marks.old n k) }
{
    let mut queue = Queue::of_marked(alloc, marks)?;
    while let Some(node) = queue.take() {
        let by = marks[node];
        propagate_row(&rows[node], by, marks, &mut queue)?;
    }
    Ok(())
}

/// Lets the marks `by` of a node pass along its edges. A node to which a new mark comes waits then.
fn propagate_row(
    row: &[Edge],
    by: u64,
    marks: &mut [u64],
    queue: &mut Queue,
) -> Result<(), AllocError>
    requires inside { IsRow row.now (length marks.old) }
    requires sizes { length queue.old.waits.items ≡ length marks.old }
    ensures { OnOk result (IsPropagated row.now (length row.now) by marks.old queue.old.waiting.items queue.old.waits.items marks.new queue.new.waiting.items queue.new.waits.items) }
{
    for i in 0..row.len() {
        let edge = row[i];
        grow(marks, queue, edge.to as usize, by & edge.mask)?;
    }
    Ok(())
}

/// Adds marks to those of a node, which waits then if one of them is new.
///
/// It fails only where no memory was left.
pub fn grow(marks: &mut [u64], queue: &mut Queue, node: usize, by: u64) -> Result<(), AllocError>
    requires node { node < length marks.old }
    requires sizes { length queue.old.waits.items ≡ length marks.old }
    ensures { OnOk result (IsGrown node by marks.old queue.old.waiting.items queue.old.waits.items marks.new queue.new.waiting.items queue.new.waits.items) }
{
    let old = marks[node];
    let grown = joined(old, by);
    if grown != old {
        queue.add(node)?;
        marks[node] = grown;
    }
    Ok(())
}
