use crate::columns::Column;
use crate::layout::Layout;
use crate::node::Node;
use crate::numbers::{copy_of, is_set, number_at, numbered, put, set};
use crate::relaxation::LagrangianRelaxation;
use std::alloc::{AllocError, Global};

/// A choice below a node, by a greedy heuristic: what a relaxation takes, and then each other free variable that fits, the
/// greatest gain first and the lowest number on a tie.
#[derive(Drop)]
pub(crate) struct Completion {
    /// What the choice leaves of each row up to the last knapsack row.
    slack: Vec<u64>,
    /// Whether it takes a packing row.
    full: Vec<bool>,
    /// Which variables are taken.
    taken: Vec<bool>,
    /// Their scaled gains.
    pub gain: u64,
}

/// Whether a row has room for a weight.
fn has_room(slack: &[u64], entry: &(u32, u64)) -> bool {
    number_at(slack, entry.0 as usize) >= entry.1
}

fn use_slack(slack: &mut [u64], row: u32, weight: u64) {
    let place = row as usize;
    put(slack, place, number_at(slack, place).saturating_sub(weight));
}

impl Completion {
    fn take(&mut self, column: &Column, number: usize) {
        set(&mut self.taken, number);
        self.gain = self.gain.saturating_add(column.gain);
        for (row, weight) in &column.knapsack {
            use_slack(&mut self.slack, *row, *weight);
        }
        for row in &column.packing {
            set(&mut self.full, *row as usize);
        }
    }

    fn has_room_for(&self, column: &Column) -> bool {
        column
            .knapsack
            .iter()
            .all(|entry| has_room(&self.slack, entry))
            && column
                .packing
                .iter()
                .all(|row| !is_set(&self.full, *row as usize))
    }

    /// Takes what a relaxation takes, whose sums are known.
    fn take_relaxed(&mut self, layout: &Layout, relaxation: &LagrangianRelaxation) {
        for row in &layout.knapsack {
            let load = number_at(&relaxation.load, *row as usize);
            use_slack(&mut self.slack, *row, load);
        }
        for (column, is_taken) in layout.columns.iter().zip(relaxation.taken.iter()) {
            if *is_taken {
                for row in &column.packing {
                    set(&mut self.full, *row as usize);
                }
            }
        }
    }

    fn fill(&mut self, layout: &Layout, node: &Node) {
        for ranked in &layout.by_gain {
            if !node.is_live(ranked.number) {
                continue;
            }
            if !has_room(&self.slack, &ranked.first) || !has_room(&self.slack, &ranked.last) {
                continue;
            }
            let place = ranked.number as usize;
            if place >= layout.columns.len() || is_set(&self.taken, place) {
                continue;
            }
            if self.has_room_for(&layout.columns[place]) {
                self.take(&layout.columns[place], place);
            }
        }
    }

    /// Completes what a relaxation takes, which must be feasible.
    pub(crate) fn of(
        alloc: Global,
        layout: &Layout,
        node: &Node,
        relaxation: &LagrangianRelaxation,
    ) -> Result<Completion, AllocError> {
        let mut completion = Completion {
            slack: copy_of(alloc, &node.slack)?,
            full: Vec::from_slice(alloc, node.full())?,
            taken: Vec::from_slice(alloc, &relaxation.taken)?,
            gain: node.gained.saturating_add(relaxation.gain),
        };
        completion.take_relaxed(layout, relaxation);
        completion.fill(layout, node);
        Ok(completion)
    }

    /// The numbers of the variables that are taken, with those that the node fixes to one.
    pub(crate) fn numbers(&self, alloc: Global, node: &Node) -> Result<Vec<u32>, AllocError> {
        let mut numbers = Vec::new(alloc);
        for number in 0..numbered(self.taken.len()) {
            let place = number as usize;
            if is_set(&self.taken, place) || is_set(&node.ones, place) {
                numbers.push(number)?;
            }
        }
        Ok(numbers)
    }
}
