ghost use Rattle.std.specs.Prelude.{◌≡◌, ℕ, ◌<◌, nat_lt, true, length, IfOk, OnOk};
ghost use Rattle.code_blocks.specs.Early.{has};
ghost use Rattle.region_former.specs.Propagation.{raised, mark_at, row_of, IsRaised, Propagates, PropagatesOut, AreBelow};

use std::alloc::{AllocError, Global};

/// Which roots lead to a function, as far as regions ask.
#[derive(Clone, Copy)]
pub(crate) enum Reached {
    ByNone,
    ByOne(usize),
    BySeveral,
}

/// A mark and another one together, if that says more.
fn raised(old: Reached, by: Reached) -> Option<Reached>
    ensures { result ≡ raised old by }
{
    match by {
        Reached::ByNone => None,
        Reached::ByOne(root) => match old {
            Reached::ByNone => Some(Reached::ByOne(root)),
            Reached::ByOne(other) if other == root => None,
            Reached::ByOne(_) => Some(Reached::BySeveral),
            Reached::BySeveral => None,
        },
        Reached::BySeveral => match old {
            Reached::BySeveral => None,
            _ => Some(Reached::BySeveral),
        },
    }
}

/// Raises the mark of function `f`, and lets it wait, if that says more.
fn raise(
    marks: &mut [Reached],
    waiting: &mut Vec<usize>,
    f: usize,
    by: Reached,
) -> Result<(), AllocError>
    requires { f < length marks.old }
    ensures { OnOk result (IsRaised marks.old waiting.old.items f (raised (mark_at marks.old f) by) marks.new waiting.new.items) }
{
    match raised(marks[f], by) {
        Some(mark) => {
            waiting.push(f)?;
            marks[f] = mark;
            Ok(())
        }
        None => Ok(()),
    }
}

/// Raises the marks of functions.
fn propagate(
    marks: &mut [Reached],
    waiting: &mut Vec<usize>,
    functions: &[usize],
    by: Reached,
) -> Result<(), AllocError>
    requires { (g : ℕ) → has functions.now g ≡ true → g < length marks.old }
    ensures { OnOk result (Propagates marks.old waiting.old.items functions.now by marks.new waiting.new.items) }
{
    for function in functions {
        raise(marks, waiting, *function, by)?;
    }
    Ok(())
}

/// Raises the marks of the functions behind function `f`.
fn propagate_from(
    marks: &mut [Reached],
    waiting: &mut Vec<usize>,
    rows: &[Vec<usize>],
    f: usize,
) -> Result<(), AllocError>
    requires function { f < length marks.old }
    requires row { f < length rows.now }
    requires below { AreBelow (length marks.old) rows.now }
    ensures { OnOk result (Propagates marks.old waiting.old.items (row_of rows.now f) (mark_at marks.old f) marks.new waiting.new.items) }
{
    let by = marks[f];
    propagate(marks, waiting, &rows[f], by)
}

/// Spreads all marks along the rows, which tell the functions behind each function. A mark is raised twice at
/// most, so the time grows with the number of entries.
pub(crate) fn propagate_out(
    alloc: Global,
    marks: &mut [Reached],
    rows: &[Vec<usize>],
) -> Result<(), AllocError>
    requires one_each { length rows.now ≡ length marks.old }
    requires below { AreBelow (length marks.old) rows.now }
    ensures { OnOk result (PropagatesOut marks.old rows.now marks.new) }
{
    let mut waiting = all_places(alloc, marks.len())?;
    while let Some(f) = waiting.pop() {
        propagate_from(marks, &mut waiting, rows, f)?;
    }
    Ok(())
}

/// The numbers below `count`.
fn all_places(alloc: Global, count: usize) -> Result<Vec<usize>, AllocError>
    ensures { IfOk result (λ places. (f : ℕ) → has places.items f ≡ nat_lt f count) }
{
    let mut places = Vec::with_capacity(alloc, count)?;
    for f in 0..count {
        places.push(f)?;
    }
    Ok(places)
}
