use crate::numbers::{flagged, is_set, number_at, numbered, put, set, unset, zeros};
use placement_programme::Side;
use std::alloc::{AllocError, Global};

/// The rows of a side in which some variable weighs something, ascending: the bound reads these alone, and numbers them by
/// their places here.
#[derive(Drop)]
pub(crate) struct NamedRows {
    /// Their numbers on the side.
    pub numbers: Vec<u32>,
    pub capacities: Vec<u64>,
    /// Whether a row is a knapsack row: its capacity or some weight isn't 1.
    pub is_knapsack: Vec<bool>,
    /// For each row of the side its place here, 0 where it has none.
    places: Vec<u64>,
}

fn mark_named(named: &mut [bool], weights: &[(u32, u64)]) {
    for (row, _) in weights {
        set(named, *row as usize);
    }
}

/// The numbers of the rows in which some variable weighs something.
fn numbers_of(alloc: Global, side: &Side) -> Result<Vec<u32>, AllocError> {
    let mut named = unset(alloc, side.rows.len())?;
    for var in &side.vars {
        mark_named(&mut named, &var.weights);
    }
    flagged(alloc, &named)
}

impl NamedRows {
    /// Of a side, none marked as a knapsack row yet.
    fn unmarked(alloc: Global, side: &Side) -> Result<NamedRows, AllocError> {
        let numbers = numbers_of(alloc, side)?;
        let mut capacities = Vec::with_capacity(alloc, numbers.len())?;
        let mut places = zeros(alloc, side.rows.len())?;
        for row in &numbers {
            put(&mut places, *row as usize, capacities.len() as u64);
            capacities.push(number_at(&side.rows, *row as usize))?;
        }
        let is_knapsack = unset(alloc, numbers.len())?;
        Ok(NamedRows {
            numbers,
            capacities,
            is_knapsack,
            places,
        })
    }

    /// Of a side.
    pub(crate) fn of(alloc: Global, side: &Side) -> Result<NamedRows, AllocError> {
        let mut rows = NamedRows::unmarked(alloc, side)?;
        for (place, capacity) in rows.capacities.iter().enumerate() {
            if *capacity != 1 {
                set(&mut rows.is_knapsack, place);
            }
        }
        for var in &side.vars {
            rows.mark_weights(&var.weights);
        }
        Ok(rows)
    }

    fn mark_weights(&mut self, weights: &[(u32, u64)]) {
        for (row, weight) in weights {
            if *weight != 1 {
                let place = self.place_of(*row);
                set(&mut self.is_knapsack, place as usize);
            }
        }
    }

    /// The place of a row of the side.
    pub(crate) fn place_of(&self, row: u32) -> u32 {
        numbered(number_at(&self.places, row as usize) as usize)
    }

    /// How many rows there are up to the last knapsack row: what is kept of knapsack rows needs so many places.
    pub(crate) fn knapsack_end(&self) -> usize {
        match self.is_knapsack.iter().rposition(|is| *is) {
            Some(last) => last.saturating_add(1),
            None => 0,
        }
    }

    /// The number on the side of the row at a place; None past the last.
    pub(crate) fn number_of(&self, place: u32) -> Option<u32> {
        self.numbers.get(place as usize).copied()
    }
}
