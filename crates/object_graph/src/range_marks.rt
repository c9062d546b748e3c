ghost use Rattle.std.specs.Prelude.{◌≡◌, ℕ, ◌<◌, ◌++◌, false, length, IfOk};
ghost use Rattle.object_graph.specs.Disjoint.{IsBelow, mark_at, AddsPlace, unmarked_at, unmarked_below};

use loaded_file::ByteRange;
use std::alloc::{AllocError, Global};

/// So many places without a mark.
pub(crate) fn no_marks(alloc: Global, count: usize) -> Result<Vec<bool>, AllocError>
    ensures none { IfOk result (λ marks. (k : ℕ) → mark_at marks.items k ≡ false) }
    ensures len { IfOk result (λ marks. length marks.items ≡ count) }
{
    vec![in alloc; false; count]
}

/// Marks a place, if there is one.
pub(crate) fn mark(marks: &mut [bool], answer: Option<usize>)
    requires { IsBelow (length marks.old) answer }
    ensures adds { AddsPlace answer marks.old marks.new }
    ensures len { length marks.new ≡ length marks.old }
{
    if let Some(place) = answer {
        marks[place] = true;
    }
}

/// The mark of place `k`; there is none behind the last.
pub(crate) fn is_marked(marks: &[bool], k: usize) -> bool
    ensures { result ≡ mark_at marks.now k }
{
    k < marks.len() && marks[k]
}

/// The ranges of a list that have no mark, in its order.
pub(crate) fn unmarked(
    alloc: Global,
    ranges: &[ByteRange],
    marks: &[bool],
) -> Result<Vec<ByteRange>, AllocError>
    ensures { IfOk result (λ kept. kept.items ≡ unmarked_below ranges.now marks.now (length ranges.now)) }
{
    let mut kept = Vec::new(alloc);
    for k in 0..ranges.len() {
        push_unmarked(&mut kept, ranges, marks, k)?;
    }
    Ok(kept)
}

/// Adds range `k`, if it has no mark.
fn push_unmarked(
    kept: &mut Vec<ByteRange>,
    ranges: &[ByteRange],
    marks: &[bool],
    k: usize,
) -> Result<(), AllocError>
    requires { k < length ranges.now }
    ensures { IfOk result (λ _. kept.new.items ≡ kept.old.items ++ unmarked_at ranges.now marks.now k) }
{
    if !is_marked(marks, k) {
        kept.push(ranges[k])?;
    }
    Ok(())
}
