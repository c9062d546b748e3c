use crate::columns::Column;
use crate::layout::Layout;
use crate::numbers::{first_numbers, is_set, number_at, numbered, put, set, unset, zeros};
use certificate_checker::{Fixing, is_free, is_one};
use std::alloc::{AllocError, Global};

/// What is left at a node of the search.
#[derive(Drop)]
pub(crate) struct Node {
    /// Of each row up to the last knapsack row, what the variables that are fixed to one leave of its capacity.
    pub slack: Vec<u64>,
    /// Whether one of them takes a packing row.
    full: Vec<bool>,
    /// Of each row the first one from it on that is full, past the last row where none is.
    next_full: Vec<u64>,
    /// A row that they exceed. Where there is one, nothing is said of the free variables.
    pub exceeded: Option<u32>,
    /// Whether a variable is fixed to one.
    pub ones: Vec<bool>,
    /// Whether a variable is free and each of its packing rows has slack.
    live: Vec<bool>,
    /// The variables that are free and have a packing row that is full.
    pub barred: Vec<u32>,
    /// The scaled gains of the variables that are fixed to one.
    pub gained: u64,
    /// The scaled gains that are to be passed.
    pub target: u64,
}

fn use_slack(node: &mut Node, row: u32, weight: u64) {
    let place = row as usize;
    match number_at(&node.slack, place).checked_sub(weight) {
        Some(left) => put(&mut node.slack, place, left),
        None => node.exceeded = Some(row),
    }
}

fn take_row(node: &mut Node, row: u32) {
    let place = row as usize;
    if is_set(&node.full, place) {
        node.exceeded = Some(row);
    }
    set(&mut node.full, place);
}

fn fix_to_one(node: &mut Node, column: &Column) {
    node.gained = node.gained.saturating_add(column.gain);
    for (row, weight) in &column.knapsack {
        use_slack(node, *row, *weight);
    }
    for row in &column.packing {
        take_row(node, *row);
    }
}

fn find_next_full(next_full: &mut [u64], full: &[bool]) {
    let mut next = full.len() as u64;
    for row in (0..full.len()).rev() {
        if full[row] {
            next = row as u64;
        }
        put(next_full, row, next);
    }
}

fn restore_slack(slack: &mut [u64], capacities: &[u64]) {
    for row in 0..slack.len() {
        slack[row] = number_at(capacities, row);
    }
}

impl Node {
    /// Room for the nodes of a side.
    pub(crate) fn new(alloc: Global, layout: &Layout) -> Result<Node, AllocError> {
        let count = layout.columns.len();
        let rows = layout.rows.numbers.len();
        Ok(Node {
            slack: first_numbers(alloc, &layout.rows.capacities, layout.knapsack_end)?,
            full: unset(alloc, rows)?,
            next_full: zeros(alloc, rows)?,
            exceeded: None,
            ones: unset(alloc, count)?,
            live: unset(alloc, count)?,
            barred: Vec::with_capacity(alloc, count)?,
            gained: 0,
            target: 0,
        })
    }

    /// Has the node that fixes the variables so.
    pub(crate) fn restart(
        &mut self,
        layout: &Layout,
        marks: &[Fixing],
        target: u64,
    ) -> Result<(), AllocError> {
        self.target = target;
        self.clear(layout);
        self.fix_all(layout, marks);
        if self.exceeded.is_some() {
            return Ok(());
        }
        find_next_full(&mut self.next_full, &self.full);
        self.mark_free(layout, marks)
    }

    /// Fixes nothing.
    fn clear(&mut self, layout: &Layout) {
        restore_slack(&mut self.slack, &layout.rows.capacities);
        self.full.fill(false);
        self.ones.fill(false);
        self.live.fill(false);
        self.barred.clear();
        self.exceeded = None;
        self.gained = 0;
    }

    fn fix_all(&mut self, layout: &Layout, marks: &[Fixing]) {
        for number in 0..marks.len().min(layout.columns.len()) {
            if is_one(marks, number) {
                set(&mut self.ones, number);
                fix_to_one(self, &layout.columns[number]);
            }
        }
    }

    fn mark_free(&mut self, layout: &Layout, marks: &[Fixing]) -> Result<(), AllocError> {
        for number in 0..marks.len().min(layout.columns.len()) {
            if is_free(marks, number) {
                self.mark_one_free(&layout.columns[number], number)?;
            }
        }
        Ok(())
    }

    fn mark_one_free(&mut self, column: &Column, number: usize) -> Result<(), AllocError> {
        if self.full_row(column).is_some() {
            self.barred.push(numbered(number))?;
        } else {
            set(&mut self.live, number);
        }
        Ok(())
    }

    /// The first packing row of a variable that is full.
    pub(crate) fn full_row(&self, column: &Column) -> Option<usize> {
        match column.run {
            Some(run) => {
                let next = number_at(&self.next_full, run.first) as usize;
                if next <= run.last { Some(next) } else { None }
            }
            None => self.first_full(&column.packing),
        }
    }

    fn first_full(&self, packing: &[u32]) -> Option<usize> {
        for row in packing {
            if is_set(&self.full, *row as usize) {
                return Some(*row as usize);
            }
        }
        None
    }

    /// Which packing rows are full.
    pub(crate) fn full(&self) -> &[bool] {
        &self.full
    }

    /// The scaled gains that the free variables have to stay within.
    pub(crate) fn goal(&self) -> u64 {
        self.target.saturating_sub(self.gained)
    }

    pub(crate) fn is_live(&self, number: u32) -> bool {
        is_set(&self.live, number as usize)
    }
}
