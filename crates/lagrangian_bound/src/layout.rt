use crate::columns::{Column, columns_of, scale_for};
use crate::named_rows::NamedRows;
use crate::numbers::{flagged, number_at, numbered};
use placement_programme::Side;
use std::alloc::{AllocError, Global};
use std::cmp::Reverse;

/// A variable with its weights in its first and in its last knapsack row, by which most are seen not to fit.
#[derive(Clone, Copy, Drop)]
pub(crate) struct Ranked {
    pub number: u32,
    pub first: (u32, u64),
    pub last: (u32, u64),
}

/// A variable with packing rows.
#[derive(Clone, Copy, Drop)]
pub(crate) struct Tied {
    pub number: u32,
    pub gain: u64,
    /// Its place among these.
    pub place: usize,
    /// How many of these end before its first packing row.
    pub from: usize,
}

/// A variable without packing rows.
#[derive(Clone, Copy, Drop)]
pub(crate) struct Loose {
    pub number: u32,
    pub gain: u64,
}

/// What the bound reads of a side, made once.
#[derive(Drop)]
pub(crate) struct Layout {
    /// By which gains are multiplied.
    pub scale: u32,
    pub rows: NamedRows,
    pub columns: Vec<Column>,
    /// The knapsack rows.
    pub knapsack: Vec<u32>,
    /// How many rows there are up to the last knapsack row.
    pub knapsack_end: usize,
    /// The variables with packing rows, by their last ones and then by their numbers.
    pub tied: Vec<Tied>,
    /// Of each row up to the last knapsack row the variables that weigh something in it, each with its weight; none where it
    /// is a packing row.
    by_row: Vec<Vec<(u32, u64)>>,
    /// The variables without packing rows.
    pub loose: Vec<Loose>,
    /// The variables, the greatest gain first and the lowest number on a tie.
    pub by_gain: Vec<Ranked>,
}

/// The variables without packing rows.
fn loose_of(alloc: Global, columns: &[Column]) -> Result<Vec<Loose>, AllocError> {
    let mut loose = Vec::new(alloc);
    for number in 0..columns.len() {
        if columns[number].span().is_none() {
            loose.push(Loose {
                number: numbered(number),
                gain: columns[number].gain,
            })?;
        }
    }
    Ok(loose)
}

/// The variables with packing rows, behind the last of these, ascending.
fn sorted_ends(alloc: Global, columns: &[Column]) -> Result<Vec<(usize, u32)>, AllocError> {
    let mut ends = Vec::new(alloc);
    for number in 0..columns.len() {
        if let Some(span) = columns[number].span() {
            ends.push((span.last, numbered(number)))?;
        }
    }
    ends.sort_unstable();
    Ok(ends)
}

/// Of each of so many rows, and behind the last, how many variables end before it.
fn ended_of(alloc: Global, ends: &[(usize, u32)], rows: usize) -> Result<Vec<u64>, AllocError> {
    let mut ended = Vec::with_capacity(alloc, rows.saturating_add(1))?;
    for row in 0..rows {
        ended.push(ends.partition_point(|end| end.0 < row) as u64)?;
    }
    ended.push(ends.len() as u64)?;
    Ok(ended)
}

fn tied_from(
    alloc: Global,
    columns: &[Column],
    ends: &[(usize, u32)],
    ended: &[u64],
) -> Result<Vec<Tied>, AllocError> {
    let mut tied = Vec::with_capacity(alloc, ends.len())?;
    for (_, number) in ends {
        if let Some(column) = columns.get(*number as usize) {
            let place = tied.len();
            tied.push(Tied {
                number: *number,
                gain: column.gain,
                place,
                from: number_at(ended, column.first_row()) as usize,
            })?;
        }
    }
    Ok(tied)
}

/// The variables with packing rows, of which there are so many, by their last ones and then by their numbers.
fn tied_of(alloc: Global, columns: &[Column], rows: usize) -> Result<Vec<Tied>, AllocError> {
    let ends = sorted_ends(alloc, columns)?;
    let ended = ended_of(alloc, &ends, rows)?;
    tied_from(alloc, columns, &ends, &ended)
}

/// Adds a variable to the knapsack rows in which it weighs something.
fn push_weights(
    by_row: &mut [Vec<(u32, u64)>],
    column: &Column,
    number: u32,
) -> Result<(), AllocError> {
    for (row, weight) in &column.knapsack {
        let place = *row as usize;
        if place < by_row.len() {
            by_row[place].push((number, *weight))?;
        }
    }
    Ok(())
}

fn no_entries(alloc: Global, rows: usize) -> Result<Vec<Vec<(u32, u64)>>, AllocError> {
    let mut entries = Vec::with_capacity(alloc, rows)?;
    for _ in 0..rows {
        entries.push(Vec::new(alloc))?;
    }
    Ok(entries)
}

/// The weights in knapsack rows by rows, of which there are so many up to the last one.
fn by_row_of(
    alloc: Global,
    columns: &[Column],
    rows: usize,
) -> Result<Vec<Vec<(u32, u64)>>, AllocError> {
    let mut by_row = no_entries(alloc, rows)?;
    for (number, column) in columns.iter().enumerate() {
        push_weights(&mut by_row, column, numbered(number))?;
    }
    Ok(by_row)
}

/// The variables behind their scaled gains, the greatest gain first and the lowest number on a tie.
fn sorted_gains(alloc: Global, columns: &[Column]) -> Result<Vec<(Reverse<u64>, u32)>, AllocError> {
    let mut gains = Vec::new(alloc);
    for column in columns {
        let number = numbered(gains.len());
        gains.push((Reverse(column.gain), number))?;
    }
    gains.sort_unstable();
    Ok(gains)
}

/// A weight in a row, 0 where there is none.
fn or_none(entry: Option<&(u32, u64)>) -> (u32, u64) {
    match entry {
        Some(entry) => *entry,
        None => (0, 0),
    }
}

fn ranking_of(alloc: Global, columns: &[Column]) -> Result<Vec<Ranked>, AllocError> {
    let mut ranking = Vec::with_capacity(alloc, columns.len())?;
    for (_, number) in &sorted_gains(alloc, columns)? {
        if let Some(column) = columns.get(*number as usize) {
            ranking.push(Ranked {
                number: *number,
                first: or_none(column.knapsack.first()),
                last: or_none(column.knapsack.last()),
            })?;
        }
    }
    Ok(ranking)
}

/// The variables of a side in the orders in which the bound reads them.
#[derive(Drop)]
struct Orders {
    tied: Vec<Tied>,
    loose: Vec<Loose>,
    by_gain: Vec<Ranked>,
}

fn orders_of(alloc: Global, columns: &[Column], rows: usize) -> Result<Orders, AllocError> {
    let tied = tied_of(alloc, columns, rows)?;
    let loose = loose_of(alloc, columns)?;
    let by_gain = ranking_of(alloc, columns)?;
    Ok(Orders {
        tied,
        loose,
        by_gain,
    })
}

/// The layout of columns over named rows, behind the orders of their variables.
fn ordered_layout(
    alloc: Global,
    scale: u32,
    rows: NamedRows,
    columns: Vec<Column>,
    orders: Orders,
) -> Result<Layout, AllocError> {
    let knapsack_end = rows.knapsack_end();
    let by_row = by_row_of(alloc, &columns, knapsack_end)?;
    let knapsack = flagged(alloc, &rows.is_knapsack)?;
    let Orders {
        tied,
        loose,
        by_gain,
    } = orders;
    Ok(Layout {
        scale,
        rows,
        columns,
        knapsack,
        knapsack_end,
        by_row,
        tied,
        loose,
        by_gain,
    })
}

/// The layout of a side whose gains are multiplied so.
fn scaled_layout(alloc: Global, side: &Side, scale: u32) -> Result<Layout, AllocError> {
    let rows = NamedRows::of(alloc, side)?;
    let columns = columns_of(alloc, side, scale, &rows)?;
    let orders = orders_of(alloc, &columns, rows.numbers.len())?;
    ordered_layout(alloc, scale, rows, columns, orders)
}

impl Layout {
    /// The first knapsack row, 0 where there is none.
    pub(crate) fn first_knapsack(&self) -> u32 {
        match self.knapsack.first() {
            Some(row) => *row,
            None => 0,
        }
    }

    /// The last packing row of a variable, 0 where it has none.
    pub(crate) fn last_row(&self, number: u32) -> usize {
        match self.columns.get(number as usize) {
            Some(column) => column.last_row(),
            None => 0,
        }
    }

    /// The variables that weigh something in a knapsack row, each with its weight.
    pub(crate) fn weights_in(&self, row: u32) -> &[(u32, u64)] {
        match self.by_row.get(row as usize) {
            Some(entries) => entries,
            None => &[],
        }
    }

    /// Of a side, None where its gains are too large for the bound.
    pub(crate) fn of(alloc: Global, side: &Side) -> Result<Option<Layout>, AllocError> {
        match scale_for(side) {
            Some(scale) => Ok(Some(scaled_layout(alloc, side, scale)?)),
            None => Ok(None),
        }
    }
}
