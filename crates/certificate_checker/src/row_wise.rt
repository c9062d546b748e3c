ghost use Rattle.std.specs.Prelude.{◌≡◌, ℕ, ◌<◌, [], ◌∷◌, ◌++◌, length, slice_set, IfOk, OnOk};
ghost use Rattle.placement_programme.specs.{Bounds.{RowsWithin}, Views.{plain_side}};
ghost use Rattle.certificate_checker.specs.RowWise.{plain_rows, rows_of, row_at, entry_for, AreRowsOf, IsOfSide, Enters};

use crate::columns::{row_count, var_count, weights_of_var};
use placement_programme::Side;
use std::alloc::{AllocError, Global};

/// The weights of a side by rows, where the side has them by variables: a dual node needs few rows.
#[derive(Drop)]
pub struct RowWise {
    /// Of each row the variables that weigh something in it, ascending, each with its weight.
    pub(crate) rows: Vec<Vec<(u32, u64)>>,
}

/// Adds a weight behind those of a row.
fn push_weight(
    rows: &mut [Vec<(u32, u64)>],
    number: u32,
    entry: (u32, u64),
) -> Result<(), AllocError>
    requires { entry.0 < length rows.old }
    ensures { OnOk result ((row : ℕ) → row_at (plain_rows rows.new) row ≡ row_at (plain_rows rows.old) row ++ entry_for number entry row) }
{
    rows[entry.0 as usize].push((number, entry.1))?;
    Ok(())
}

/// Adds the weights of a variable.
fn push_weights(
    rows: &mut [Vec<(u32, u64)>],
    number: u32,
    weights: &[(u32, u64)],
) -> Result<(), AllocError>
    requires { RowsWithin 0 (length rows.old) weights.now }
    ensures { OnOk result (Enters number weights.now (plain_rows rows.old) (plain_rows rows.new)) }
{
    for entry in weights {
        push_weight(rows, number, *entry)?;
    }
    Ok(())
}

/// Adds the weights of all variables.
fn push_all(rows: &mut [Vec<(u32, u64)>], side: &Side) -> Result<(), AllocError>
    requires count { length rows.old ≡ length (plain_side side.now).rows }
    requires bare { (row : ℕ) → row_at (plain_rows rows.old) row ≡ [] }
    ensures { OnOk result (AreRowsOf (plain_side side.now).vars (length (plain_side side.now).vars) (plain_rows rows.new)) }
{
    for number in 0..var_count(side) {
        push_weights(rows, number as u32, weights_of_var(side, number))?;
    }
    Ok(())
}

fn empty_rows(alloc: Global, count: usize) -> Result<Vec<Vec<(u32, u64)>>, AllocError>
    ensures count { IfOk result (λ rows. length rows.items ≡ count) }
    ensures bare { IfOk result (λ rows. (row : ℕ) → row_at (plain_rows rows.items) row ≡ []) }
{
    let mut rows = Vec::new(alloc);
    for _ in 0..count {
        rows.push(Vec::new(alloc))?;
    }
    Ok(rows)
}

/// What stands in a row.
fn row_in(rows: &[Vec<(u32, u64)>], row: usize) -> &[(u32, u64)]
    requires { row < length rows.now }
    ensures { result.now ≡ row_at (plain_rows rows.now) row }
{
    &rows[row]
}

impl RowWise {
    /// The weights of a side.
    pub fn of(alloc: Global, side: &Side) -> Result<RowWise, AllocError>
        ensures { IfOk result (λ w. IsOfSide (plain_side side.now) (rows_of w)) }
    {
        let mut rows = empty_rows(alloc, row_count(side))?;
        push_all(&mut rows, side)?;
        Ok(RowWise { rows })
    }

    /// What stands in a row.
    pub(crate) fn row(&self, row: usize) -> &[(u32, u64)]
        requires { row < length (rows_of self.now) }
        ensures { result.now ≡ row_at (rows_of self.now) row }
    {
        row_in(&self.rows, row)
    }
}
