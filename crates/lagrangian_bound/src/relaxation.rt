use crate::columns::Column;
use crate::layout::Layout;
use crate::live::{LiveVars, TrialVar};
use crate::node::Node;
use crate::numbers::{add, is_set, number_at, put, set, take_off, unset, zeros};
use std::alloc::{AllocError, Global};
use std::mem::replace;

/// What some variables with packing rows hold.
#[derive(Clone, Copy, Drop)]
struct Reach {
    /// What they hold at most.
    held: u64,
    /// How many of them there are up to the last one that is taken for that, 0 where none is.
    end: usize,
}

const NO_REACH: Reach = Reach { held: 0, end: 0 };

fn reach_at(reach: &[Reach], count: usize) -> Reach {
    if count < reach.len() {
        reach[count]
    } else {
        NO_REACH
    }
}

fn no_reach(alloc: Global, count: usize) -> Result<Vec<Reach>, AllocError> {
    let mut reach = Vec::new(alloc);
    reach.resize(count, NO_REACH)?;
    Ok(reach)
}

/// What variables with packing rows hold at most, up to each one and all together. Scaled gains are too small to wrap.
fn settle(reach: &mut [Reach], vars: &[TrialVar], multiplier: u64) -> u64 {
    let mut best = NO_REACH;
    for (place, var) in vars.iter().enumerate() {
        let count = place.wrapping_add(1);
        let behind = reach_at(reach, var.from).held;
        let with = behind.wrapping_add(var.reduced_gain(multiplier));
        if with > best.held {
            best = Reach {
                held: with,
                end: count,
            };
        }
        if count < reach.len() {
            reach[count] = best;
        }
    }
    best.held
}

/// The variables with packing rows that hold the most together, from the last one back.
fn chain(reach: &[Reach], vars: &[TrialVar], numbers: &mut Vec<u32>) -> Result<(), AllocError> {
    numbers.clear();
    let mut count = vars.len();
    for _ in 0..vars.len() {
        let end = reach_at(reach, count).end;
        if end == 0 || end > vars.len() {
            return Ok(());
        }
        let var = vars[end - 1];
        numbers.push(var.number)?;
        count = var.from;
    }
    Ok(())
}

/// What the free variables gain at most where the knapsack rows have multipliers in place of capacities.
///
/// The packing rows are kept: where each variable takes neighbouring ones, as blocks of code and the
/// regions of an object are, the best choice over the rows up to each one is found from the first to the last.
#[derive(Drop)]
pub(crate) struct LagrangianRelaxation {
    /// The bound on the scaled gains of the free variables.
    pub value: u64,
    /// Of so many of the trial's variables with packing rows, the first ones by their last rows.
    reach: Vec<Reach>,
    /// The variables with packing rows that it takes, the last one first.
    chosen: Vec<u32>,
    /// Room for those of the next trial.
    spare: Vec<u32>,
    /// For each variable the last trial that took it for its packing rows.
    chosen_by: Vec<u64>,
    /// How many multipliers were tried at this node.
    trials: u64,
    /// Which variables it takes. From one trial of multipliers to the next few change, so that only these are added to the
    /// sums or taken off them.
    pub taken: Vec<bool>,
    /// Of each row up to the last knapsack row, what they weigh.
    pub load: Vec<u64>,
    /// Their scaled gains.
    pub gain: u64,
    /// Whether some multipliers that were tried at this node take a variable, and others don't.
    pub split: Vec<bool>,
    /// Whether it takes other variables than when it was completed last.
    pub has_changed: bool,
}

impl LagrangianRelaxation {
    /// Room for those of the nodes of a side.
    pub(crate) fn new(alloc: Global, layout: &Layout) -> Result<LagrangianRelaxation, AllocError> {
        let vars = layout.columns.len();
        Ok(LagrangianRelaxation {
            value: u64::MAX,
            reach: no_reach(alloc, layout.tied.len().saturating_add(1))?,
            chosen: Vec::new(alloc),
            spare: Vec::new(alloc),
            chosen_by: zeros(alloc, vars)?,
            trials: 0,
            taken: unset(alloc, vars)?,
            load: zeros(alloc, layout.knapsack_end)?,
            gain: 0,
            split: unset(alloc, vars)?,
            has_changed: true,
        })
    }

    /// Takes nothing, at a node where nothing was tried yet.
    pub(crate) fn restart(&mut self) {
        self.value = u64::MAX;
        self.chosen.clear();
        self.chosen_by.fill(0);
        self.trials = 0;
        self.taken.fill(false);
        self.load.fill(0);
        self.gain = 0;
        self.split.fill(false);
        self.has_changed = true;
    }

    fn take(&mut self, column: &Column) {
        self.gain = self.gain.saturating_add(column.gain);
        for (row, weight) in &column.knapsack {
            add(&mut self.load, *row as usize, *weight);
        }
    }

    fn leave(&mut self, column: &Column) {
        self.gain = self.gain.saturating_sub(column.gain);
        for (row, weight) in &column.knapsack {
            take_off(&mut self.load, *row as usize, *weight);
        }
    }

    /// Takes a variable that it didn't take, or drops one that it did.
    fn turn(&mut self, layout: &Layout, place: usize) {
        if place >= layout.columns.len() || place >= self.taken.len() {
            return;
        }
        let column = &layout.columns[place];
        self.has_changed = true;
        if self.taken[place] {
            self.taken[place] = false;
            self.leave(column);
        } else {
            self.taken[place] = true;
            self.take(column);
        }
        if self.trials > 1 {
            set(&mut self.split, place);
        }
    }

    fn choose_loose(&mut self, layout: &Layout, live: &LiveVars, multiplier: u64) {
        let mut gains: u64 = 0;
        for var in &live.loose {
            let gain = var.reduced_gain(multiplier);
            gains = gains.saturating_add(gain);
            let place = var.number as usize;
            if is_set(&self.taken, place) != (gain > 0) {
                self.turn(layout, place);
            }
        }
        self.value = self.value.saturating_add(gains);
    }

    /// Takes variables with packing rows, where they aren't taken yet.
    fn take_chosen(&mut self, layout: &Layout, numbers: &[u32]) {
        for number in numbers {
            let place = *number as usize;
            put(&mut self.chosen_by, place, self.trials);
            if !is_set(&self.taken, place) {
                self.turn(layout, place);
            }
        }
    }

    /// Drops those that are not taken any more.
    fn drop_others(&mut self, layout: &Layout, numbers: &[u32]) {
        for number in numbers {
            let place = *number as usize;
            if number_at(&self.chosen_by, place) != self.trials {
                self.turn(layout, place);
            }
        }
    }

    /// Chooses variables with packing rows, at the multipliers at which the bound was found last.
    pub(crate) fn choose_tied(
        &mut self,
        alloc: Global,
        layout: &Layout,
        live: &LiveVars,
    ) -> Result<(), AllocError> {
        let mut numbers = replace(&mut self.spare, Vec::new(alloc));
        chain(&self.reach, live.tied(), &mut numbers)?;
        self.take_chosen(layout, &numbers);
        let before = replace(&mut self.chosen, numbers);
        self.drop_others(layout, &before);
        self.spare = before;
        Ok(())
    }

    /// The multipliers' part of the bound: what the slack of the knapsack rows costs.
    fn add_slack_cost(&mut self, layout: &Layout, node: &Node, multipliers: &[u64]) {
        for row in &layout.knapsack {
            let place = *row as usize;
            let cost = number_at(multipliers, place).saturating_mul(number_at(&node.slack, place));
            self.value = self.value.saturating_add(cost);
        }
    }

    /// Finds the bound at these multipliers, and chooses variables without packing rows: the others are for `choose_tied`.
    pub(crate) fn relax(
        &mut self,
        layout: &Layout,
        node: &Node,
        live: &LiveVars,
        multipliers: &[u64],
    ) {
        let multiplier = live.multiplier(multipliers);
        self.trials = self.trials.saturating_add(1);
        self.value = 0;
        self.add_slack_cost(layout, node, multipliers);
        self.choose_loose(layout, live, multiplier);
        let held = settle(&mut self.reach, live.tied(), multiplier);
        self.value = self.value.saturating_add(held);
    }

    /// What so many of the trial's variables with packing rows hold at most.
    pub(crate) fn held(&self, count: usize) -> u64 {
        reach_at(&self.reach, count).held
    }

    /// Whether what it takes stays within the slack of the knapsack rows.
    pub(crate) fn is_feasible(&self, layout: &Layout, node: &Node) -> bool {
        for row in &layout.knapsack {
            let place = *row as usize;
            if number_at(&self.load, place) > number_at(&node.slack, place) {
                return false;
            }
        }
        true
    }
}
