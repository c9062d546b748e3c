use crate::layout::{Layout, Loose, Tied};
use crate::node::Node;
use crate::numbers::{number_at, put, zeros};
use std::alloc::{AllocError, Global};

/// A live variable of a node.
#[derive(Clone, Copy, Drop)]
struct LiveVar {
    number: u32,
    /// How many live variables end before its first packing row.
    from: usize,
    gain: u64,
    /// Its weight in the row whose multiplier is sought.
    weight: u64,
    /// Its multiplied weights in all other rows.
    rest: u128,
}

/// What a trial of a multiplier reads of a live variable.
#[derive(Clone, Copy, Drop)]
pub(crate) struct TrialVar {
    pub number: u32,
    /// How many of the variables of the trial end before its first packing row.
    pub from: usize,
    /// What of its scaled gain is left behind its multiplied weights, but for that in the row whose multiplier is sought.
    left: u64,
    /// Its weight in that row.
    weight: u64,
}

fn product(weight: u64, multiplier: u64) -> u128 {
    u128::from(weight).wrapping_mul(u128::from(multiplier))
}

impl TrialVar {
    /// What of the scaled gain is left behind the multiplied weights, at a multiplier of the row that is sought.
    #[inline(always)] // asked for each of them each time a multiplier is tried
    pub(crate) fn reduced_gain(&self, multiplier: u64) -> u64 {
        self.left
            .saturating_sub(self.weight.saturating_mul(multiplier))
    }
}

/// The multipliers of the row that was sought and of the next one.
#[derive(Drop)]
struct RowChange {
    before: u64,
    multiplier: u64,
}

impl LiveVar {
    /// Puts the weight in another row in place of that in the row that was sought.
    #[inline(always)] // done for each of them each time another row is sought
    fn turn(&mut self, weight: u64, change: &RowChange) {
        let whole = self.rest.wrapping_add(product(self.weight, change.before));
        self.rest = whole.wrapping_sub(product(weight, change.multiplier));
        self.weight = weight;
    }

    /// What a trial reads of it, behind so many others.
    #[inline(always)] // done for each of them each time another row is sought
    fn for_trials(&self, from: usize) -> TrialVar {
        let left = match u64::try_from(self.rest) {
            Ok(rest) => self.gain.saturating_sub(rest),
            Err(_) => 0,
        };
        TrialVar {
            number: self.number,
            from,
            left,
            weight: self.weight,
        }
    }
}

/// The live variables of a node, and the row whose multiplier is sought.
#[derive(Drop)]
pub(crate) struct LiveVars {
    /// Those without packing rows.
    live_loose: Vec<LiveVar>,
    /// The others, by their last packing rows.
    live_tied: Vec<LiveVar>,
    /// What trials read of those without packing rows.
    pub loose: Vec<TrialVar>,
    /// What trials read of the others, where they can hold anything at some multiplier of the row that is sought, and room.
    tied: Vec<TrialVar>,
    tied_count: usize,
    /// How many before each variable with packing rows were taken from a list of them into the next one.
    before: Vec<usize>,
    /// The row that is sought.
    row: u32,
    /// Of each variable of the side its weight in that row.
    weights: Vec<u64>,
    /// Of each variable of the side its multiplied weights, at the multipliers with which the node was begun.
    prices: Vec<u128>,
}

/// How many of the first variables of a list were taken into the next one.
fn taken_before(before: &[usize], count: usize) -> usize {
    if count < before.len() {
        before[count]
    } else {
        0
    }
}

fn turn_loose(
    live: &mut [LiveVar],
    trials: &mut Vec<TrialVar>,
    weights: &[u64],
    change: &RowChange,
) -> Result<(), AllocError> {
    trials.clear();
    for var in live {
        var.turn(number_at(weights, var.number as usize), change);
        trials.push(var.for_trials(0))?;
    }
    Ok(())
}

/// Keeps what trials read of those that can hold anything, in front of the others. Answers how many they are.
fn turn_tied(
    live: &mut [LiveVar],
    trials: &mut [TrialVar],
    before: &mut [usize],
    weights: &[u64],
    change: &RowChange,
) -> usize {
    let mut count: usize = 0;
    for (place, var) in live.iter_mut().enumerate() {
        var.turn(number_at(weights, var.number as usize), change);
        if place < before.len() {
            before[place] = count;
        }
        let trial = var.for_trials(taken_before(before, var.from));
        if count < trials.len() {
            trials[count] = trial;
        }
        count = count.wrapping_add(usize::from(trial.left > 0));
    }
    count
}

fn write_weights(weights: &mut [u64], entries: &[(u32, u64)]) {
    for (number, weight) in entries {
        put(weights, *number as usize, *weight);
    }
}

fn no_trials(alloc: Global, count: usize) -> Result<Vec<TrialVar>, AllocError> {
    let nothing = TrialVar {
        number: 0,
        from: 0,
        left: 0,
        weight: 0,
    };
    vec![in alloc; nothing; count]
}

fn no_counts(alloc: Global, count: usize) -> Result<Vec<usize>, AllocError> {
    vec![in alloc; 0; count]
}

/// Adds the multiplied weights in a row to the prices.
fn add_prices(prices: &mut [u128], entries: &[(u32, u64)], multiplier: u64) {
    for (number, weight) in entries {
        let place = *number as usize;
        if place < prices.len() {
            prices[place] = prices[place].wrapping_add(product(*weight, multiplier));
        }
    }
}

/// Has the multiplied weights of each variable.
fn find_prices(prices: &mut [u128], layout: &Layout, multipliers: &[u64]) {
    prices.fill(0);
    for row in &layout.knapsack {
        let multiplier = number_at(multipliers, *row as usize);
        if multiplier > 0 {
            add_prices(prices, layout.weights_in(*row), multiplier);
        }
    }
}

fn price_at(prices: &[u128], number: u32) -> u128 {
    match prices.get(number as usize) {
        Some(price) => *price,
        None => 0,
    }
}

impl LiveVars {
    /// Room for those of the nodes of a side.
    pub(crate) fn new(alloc: Global, layout: &Layout) -> Result<LiveVars, AllocError> {
        let tied = layout.tied.len();
        Ok(LiveVars {
            live_loose: Vec::with_capacity(alloc, layout.loose.len())?,
            live_tied: Vec::with_capacity(alloc, tied)?,
            loose: Vec::with_capacity(alloc, layout.loose.len())?,
            tied: no_trials(alloc, tied)?,
            tied_count: 0,
            before: no_counts(alloc, tied)?,
            row: layout.first_knapsack(),
            weights: zeros(alloc, layout.columns.len())?,
            prices: vec![in alloc; 0; layout.columns.len()]?,
        })
    }

    /// Has those of a node, and seeks the multiplier of the first knapsack row.
    pub(crate) fn restart(
        &mut self,
        layout: &Layout,
        node: &Node,
        multipliers: &[u64],
    ) -> Result<(), AllocError> {
        find_prices(&mut self.prices, layout, multipliers);
        self.live_loose.clear();
        self.live_tied.clear();
        for loose in &layout.loose {
            self.push_loose(node, loose)?;
        }
        self.push_all_tied(layout, node)?;
        self.seek_from(layout, multipliers, 0, layout.first_knapsack())
    }

    /// A variable that lives, where no row is sought.
    fn live_var(&self, number: u32, gain: u64, from: usize) -> LiveVar {
        LiveVar {
            number,
            from,
            gain,
            weight: 0,
            rest: price_at(&self.prices, number),
        }
    }

    fn push_loose(&mut self, node: &Node, loose: &Loose) -> Result<(), AllocError> {
        if node.is_live(loose.number) {
            let var = self.live_var(loose.number, loose.gain, 0);
            self.live_loose.push(var)?;
        }
        Ok(())
    }

    fn push_all_tied(&mut self, layout: &Layout, node: &Node) -> Result<(), AllocError> {
        for tied in &layout.tied {
            self.push_tied(node, tied)?;
        }
        Ok(())
    }

    fn push_tied(&mut self, node: &Node, tied: &Tied) -> Result<(), AllocError> {
        let count = self.live_tied.len();
        if tied.place < self.before.len() {
            self.before[tied.place] = count;
        }
        if node.is_live(tied.number) {
            let from = taken_before(&self.before, tied.from);
            let var = self.live_var(tied.number, tied.gain, from);
            self.live_tied.push(var)?;
        }
        Ok(())
    }

    /// What trials read of the variables with packing rows that can hold anything at some multiplier of the row that is
    /// sought, by their last packing rows.
    pub(crate) fn tied(&self) -> &[TrialVar] {
        &self.tied[..self.tied_count.min(self.tied.len())]
    }

    /// The multiplier of the row that is sought.
    pub(crate) fn multiplier(&self, multipliers: &[u64]) -> u64 {
        number_at(multipliers, self.row as usize)
    }

    /// Seeks the multiplier of a row from now on.
    pub(crate) fn seek(
        &mut self,
        layout: &Layout,
        multipliers: &[u64],
        row: u32,
    ) -> Result<(), AllocError> {
        if self.row == row {
            return Ok(());
        }
        let before = self.multiplier(multipliers);
        self.seek_from(layout, multipliers, before, row)
    }

    /// Seeks the multiplier of a row, where that of the one before it is known.
    fn seek_from(
        &mut self,
        layout: &Layout,
        multipliers: &[u64],
        before: u64,
        row: u32,
    ) -> Result<(), AllocError> {
        let change = RowChange {
            before,
            multiplier: number_at(multipliers, row as usize),
        };
        self.weights.fill(0);
        write_weights(&mut self.weights, layout.weights_in(row));
        turn_loose(
            &mut self.live_loose,
            &mut self.loose,
            &self.weights,
            &change,
        )?;
        self.tied_count = turn_tied(
            &mut self.live_tied,
            &mut self.tied,
            &mut self.before,
            &self.weights,
            &change,
        );
        self.row = row;
        Ok(())
    }
}
