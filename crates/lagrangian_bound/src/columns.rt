use crate::named_rows::NamedRows;
use crate::numbers::{is_set, number_at};
use placement_programme::{Side, Var};
use std::alloc::{AllocError, Global};

/// Scaled gains sum up to less than this.
const GAIN_LIMIT: u128 = 1 << 60;

/// Rows of which a variable takes all, from the first to the last.
#[derive(Clone, Copy, Drop)]
pub(crate) struct Span {
    pub first: usize,
    pub last: usize,
}

/// What the bound reads of a variable. A packing row has room for one variable alone, and several variables can share a
/// knapsack row.
#[derive(Drop)]
pub(crate) struct Column {
    /// Its gain, times the scale.
    pub gain: u64,
    /// Its weights in knapsack rows.
    pub knapsack: Vec<(u32, u64)>,
    /// Its packing rows.
    pub packing: Vec<u32>,
    /// From the first to the last of them, where it has any and all rows between are among them.
    pub run: Option<Span>,
}

/// The rows from the first to the last of some packing rows, None where there is none or others lie between.
fn run_of(packing: &[u32]) -> Option<Span> {
    match (packing.first(), packing.last()) {
        (Some(first), Some(last))
            if packing.len() == (last.saturating_sub(*first) as usize).saturating_add(1) => {
            Some(Span {
                first: *first as usize,
                last: *last as usize,
            })
        }
        _ => None,
    }
}

impl Column {
    /// From its first to its last packing row.
    pub(crate) fn span(&self) -> Option<Span> {
        match (self.packing.first(), self.packing.last()) {
            (Some(first), Some(last)) => Some(Span {
                first: *first as usize,
                last: *last as usize,
            }),
            _ => None,
        }
    }

    /// Its first packing row, 0 where it has none.
    pub(crate) fn first_row(&self) -> usize {
        match self.span() {
            Some(span) => span.first,
            None => 0,
        }
    }

    /// Its last packing row, 0 where it has none.
    pub(crate) fn last_row(&self) -> usize {
        match self.span() {
            Some(span) => span.last,
            None => 0,
        }
    }

    /// What of the scaled gain is left behind the multiplied weights.
    pub(crate) fn reduced_gain(&self, multipliers: &[u64]) -> u64 {
        self.gain
            .saturating_sub(priced(&self.knapsack, multipliers))
    }

    /// How far the scaled gain is from the multiplied weights.
    pub(crate) fn reduced_gain_size(&self, multipliers: &[u64]) -> u64 {
        self.gain.abs_diff(priced(&self.knapsack, multipliers))
    }
}

fn priced(weights: &[(u32, u64)], multipliers: &[u64]) -> u64 {
    let mut total: u64 = 0;
    for (row, weight) in weights {
        let multiplier = weight.saturating_mul(number_at(multipliers, *row as usize));
        total = total.saturating_add(multiplier);
    }
    total
}

/// The greatest scale up to 65,536 at which the scaled gains stay small, None where there is none.
pub(crate) fn scale_for(side: &Side) -> Option<u32> {
    let mut total: u128 = 1;
    for var in &side.vars {
        total = total.saturating_add(var.gain);
    }
    let limit = GAIN_LIMIT / total.max(1);
    match u32::try_from(limit.min(65536)) {
        Ok(0) => None,
        Ok(scale) => Some(scale),
        Err(_) => None,
    }
}

fn scaled(gain: u128, scale: u32) -> u64 {
    let product = gain.saturating_mul(u128::from(scale));
    u64::try_from(product.min(GAIN_LIMIT)).unwrap_or(0)
}

fn column_of(alloc: Global, var: &Var, scale: u32, rows: &NamedRows) -> Result<Column, AllocError> {
    let mut knapsack = Vec::new(alloc);
    let mut packing = Vec::new(alloc);
    for (row, weight) in &var.weights {
        let place = rows.place_of(*row);
        if is_set(&rows.is_knapsack, place as usize) {
            knapsack.push((place, *weight))?;
        } else {
            packing.push(place)?;
        }
    }
    Ok(Column {
        gain: scaled(var.gain, scale),
        knapsack,
        run: run_of(&packing),
        packing,
    })
}

/// The columns of a side's variables, over its named rows.
pub(crate) fn columns_of(
    alloc: Global,
    side: &Side,
    scale: u32,
    rows: &NamedRows,
) -> Result<Vec<Column>, AllocError> {
    let mut columns = Vec::new(alloc);
    for var in &side.vars {
        columns.push(column_of(alloc, var, scale, rows)?)?;
    }
    Ok(columns)
}
