use crate::completing::Completion;
use crate::layout::Layout;
use crate::live::LiveVars;
use crate::node::Node;
use crate::numbers::{number_at, put, zeros};
use crate::relaxation::LagrangianRelaxation;
use std::alloc::{AllocError, Global};

/// How many times the multipliers of all knapsack rows are improved at a node.
const ROUNDS: u32 = 3;
/// How many multipliers of a row are tried at a time.
const TRIES: u32 = 40;

/// The bound at some multipliers, seen along one of them.
#[derive(Clone, Copy, Drop)]
struct Point {
    multiplier: u64,
    value: u64,
    /// The slack of the row, and what the relaxation takes of it.
    slack: u64,
    load: u64,
}

impl Point {
    /// Whether a greater multiplier makes the bound smaller.
    fn is_low(&self) -> bool {
        self.load > self.slack
    }

    fn slope(&self) -> u128 {
        u128::from(self.load.abs_diff(self.slack))
    }
}

/// Two multipliers of a row between which the bound is least.
#[derive(Drop)]
struct Bracket {
    low: Option<Point>,
    high: Option<Point>,
    least: u64,
    best: u64,
}

/// Where the two tangents of the bound meet, None where no multiplier lies between.
fn crossing(low: &Point, high: &Point) -> Option<u64> {
    let gap = u128::from(high.multiplier.saturating_sub(low.multiplier));
    let slopes = low.slope().saturating_add(high.slope());
    if slopes == 0 || high.slope() == 0 {
        return None;
    }
    let fall = u128::from(low.value).saturating_add(high.slope().saturating_mul(gap));
    let way = fall.saturating_sub(u128::from(high.value)) / slopes;
    if way == 0 || way >= gap {
        return None;
    }
    match u64::try_from(way) {
        Ok(way) => Some(low.multiplier.saturating_add(way)),
        Err(_) => None,
    }
}

/// A multiplier above one that is too low.
fn raised(low: &Point, scale: u32) -> u64 {
    let step = (low.multiplier / 8).saturating_add(u64::from(scale));
    low.multiplier.saturating_add(step)
}

/// A multiplier below one that is too high, None where none makes the bound smaller.
fn lowered(high: &Point) -> Option<u64> {
    if high.multiplier == 0 || high.slope() == 0 {
        return None;
    }
    let step = (high.multiplier / 8).saturating_add(1);
    Some(high.multiplier.saturating_sub(step))
}

impl Bracket {
    fn at(point: Point) -> Bracket {
        let mut bracket = Bracket {
            low: None,
            high: None,
            least: point.value,
            best: point.multiplier,
        };
        bracket.add(point);
        bracket
    }

    fn add(&mut self, point: Point) {
        if point.value < self.least {
            self.least = point.value;
            self.best = point.multiplier;
        }
        if point.is_low() {
            self.low = Some(point);
        } else {
            self.high = Some(point);
        }
    }

    /// The next multiplier to try.
    fn next(&self, scale: u32) -> Option<u64> {
        match (&self.low, &self.high) {
            (Some(low), Some(high)) => crossing(low, high),
            (Some(low), None) => Some(raised(low, scale)),
            (None, Some(high)) => lowered(high),
            (None, None) => None,
        }
    }
}

/// What the bound says of a node.
#[derive(Clone, Copy, PartialEq, Eq, Drop)]
pub(crate) enum BoundStatus {
    /// It shows that nothing below gains more.
    Fathomed,
    /// It can't show it at any multipliers, since there is a better choice.
    Unfathomable,
    /// It doesn't show it at these multipliers.
    Undecided,
}

/// The Lagrangian dual at a node: the bound is sought that is least over the multipliers of the knapsack rows.
#[derive(Drop)]
pub(crate) struct LagrangianDual {
    pub node: Node,
    pub live: LiveVars,
    /// Of each row up to the last knapsack row; 0 where it isn't one.
    pub multipliers: Vec<u64>,
    pub relaxation: LagrangianRelaxation,
    /// The best choice that was met, where it gains more than the target.
    pub candidate: Option<Vec<u32>>,
}

impl LagrangianDual {
    /// Room for those of the nodes of a side.
    pub(crate) fn new(alloc: Global, layout: &Layout) -> Result<LagrangianDual, AllocError> {
        Ok(LagrangianDual {
            node: Node::new(alloc, layout)?,
            live: LiveVars::new(alloc, layout)?,
            multipliers: zeros(alloc, layout.knapsack_end)?,
            relaxation: LagrangianRelaxation::new(alloc, layout)?,
            candidate: None,
        })
    }

    /// Has the live variables of its node, and begins with the multipliers of the last one.
    pub(crate) fn restart(&mut self, layout: &Layout) -> Result<(), AllocError> {
        self.candidate = None;
        self.relaxation.restart();
        self.live.restart(layout, &self.node, &self.multipliers)
    }

    /// Completes what the relaxation takes to a candidate where that gains more than the target, which it becomes. What
    /// was completed before would give the same again.
    fn complete(&mut self, alloc: Global, layout: &Layout) -> Result<(), AllocError> {
        if !self.relaxation.has_changed {
            return Ok(());
        }
        self.relaxation.has_changed = false;
        let completion = Completion::of(alloc, layout, &self.node, &self.relaxation)?;
        if completion.gain > self.node.target {
            self.node.target = completion.gain;
            self.candidate = Some(completion.numbers(alloc, &self.node)?);
        }
        Ok(())
    }

    /// Finds the bound at the multipliers, and what it shows.
    fn evaluate(&mut self, alloc: Global, layout: &Layout) -> Result<BoundStatus, AllocError> {
        self.relaxation
            .relax(layout, &self.node, &self.live, &self.multipliers);
        if self.relaxation.value <= self.node.goal() {
            return Ok(BoundStatus::Fathomed);
        }
        self.relaxation.choose_tied(alloc, layout, &self.live)?;
        if !self.relaxation.is_feasible(layout, &self.node) {
            return Ok(BoundStatus::Undecided);
        }
        self.complete(alloc, layout)?;
        if self.relaxation.value <= self.node.goal() {
            return Ok(BoundStatus::Fathomed);
        }
        if self.relaxation.gain >= self.node.goal() {
            return Ok(BoundStatus::Unfathomable);
        }
        Ok(BoundStatus::Undecided)
    }

    fn point(&self, row: usize) -> Point {
        Point {
            multiplier: number_at(&self.multipliers, row),
            value: self.relaxation.value,
            slack: number_at(&self.node.slack, row),
            load: number_at(&self.relaxation.load, row),
        }
    }

    /// Looks for the multiplier of a row at which the bound is least, and leaves it there.
    fn minimise_row(
        &mut self,
        alloc: Global,
        layout: &Layout,
        number: u32,
    ) -> Result<BoundStatus, AllocError> {
        let row = number as usize;
        let mut bracket = Bracket::at(self.point(row));
        if bracket.next(layout.scale).is_none() {
            return Ok(BoundStatus::Undecided);
        }
        self.live.seek(layout, &self.multipliers, number)?;
        for _ in 0..TRIES {
            let Some(multiplier) = bracket.next(layout.scale) else {
                break;
            };
            put(&mut self.multipliers, row, multiplier);
            let status = self.evaluate(alloc, layout)?;
            if status != BoundStatus::Undecided {
                return Ok(status);
            }
            bracket.add(self.point(row));
        }
        if number_at(&self.multipliers, row) == bracket.best {
            return Ok(BoundStatus::Undecided);
        }
        put(&mut self.multipliers, row, bracket.best);
        self.evaluate(alloc, layout)
    }

    fn minimise_rows(&mut self, alloc: Global, layout: &Layout) -> Result<BoundStatus, AllocError> {
        for row in &layout.knapsack {
            let status = self.minimise_row(alloc, layout, *row)?;
            if status != BoundStatus::Undecided {
                return Ok(status);
            }
        }
        Ok(BoundStatus::Undecided)
    }

    /// Looks for multipliers at which the bound stays within the target, one row after the other.
    pub(crate) fn minimise(
        &mut self,
        alloc: Global,
        layout: &Layout,
    ) -> Result<BoundStatus, AllocError> {
        let mut status = self.evaluate(alloc, layout)?;
        for _ in 0..ROUNDS {
            let before = self.relaxation.value;
            if status != BoundStatus::Undecided {
                return Ok(status);
            }
            status = self.minimise_rows(alloc, layout)?;
            if status == BoundStatus::Undecided && self.relaxation.value >= before {
                return Ok(status);
            }
        }
        Ok(status)
    }
}
