use crate::columns::Column;
use crate::guiding::{DualSolution, Guide, NodeBound};
use crate::lagrangian::{BoundStatus, LagrangianDual};
use crate::layout::Layout;
use crate::node::Node;
use crate::numbers::{add, copy_of, number_at, numbered, put};
use certificate_checker::Fixing;
use placement_programme::Side;
use std::alloc::{AllocError, Global};

/// A side whose gains are small enough for the bound, with what it keeps from node to node: the multipliers of the last
/// node, from which the next one's begin, and room.
#[derive(Drop)]
struct BoundedSide {
    layout: Layout,
    dual_problem: LagrangianDual,
}

/// The Lagrangian bound of a side.
#[derive(Drop)]
pub struct DualBound {
    /// None where the side's gains are too large for it: then it bounds nothing.
    bounded: Option<BoundedSide>,
    /// What the first node's bound shows of the side, if it has been asked.
    first: Option<u128>,
}

fn nothing() -> NodeBound {
    NodeBound {
        exceeded: None,
        candidate: None,
        dual: None,
        branch: None,
    }
}

fn scaled_target(side: &Side, layout: &Layout, best: u128) -> u64 {
    let gains = best.saturating_add(side.fixed);
    let scaled = gains.saturating_mul(u128::from(layout.scale));
    u64::try_from(scaled).unwrap_or(u64::MAX)
}

/// A bound of the gains of a side, the fixed cost taken off, from one in the layout's units.
fn unscaled(side: &Side, layout: &Layout, value: u64) -> u128 {
    let gains = u128::from(value) / u128::from(layout.scale.max(1));
    gains.saturating_sub(side.fixed)
}

/// The multipliers of the packing rows: what the variables that end at each add to the reach.
fn add_steps(multipliers: &mut [u64], layout: &Layout, dual_problem: &LagrangianDual) {
    let mut before: u64 = 0;
    for (place, var) in dual_problem.live.tied().iter().enumerate() {
        let held = dual_problem.relaxation.held(place.saturating_add(1));
        if held > before {
            add(
                multipliers,
                layout.last_row(var.number),
                held.saturating_sub(before),
            );
        }
        before = held;
    }
}

/// A packing row without slack pays for a free variable that it bars.
fn bar(multipliers: &mut [u64], node: &Node, column: &Column, gain: u64) {
    if let Some(row) = node.full_row(column) {
        put(multipliers, row, number_at(multipliers, row).max(gain));
    }
}

fn bar_all(multipliers: &mut [u64], layout: &Layout, dual_problem: &LagrangianDual) {
    for number in &dual_problem.node.barred {
        if let Some(column) = layout.columns.get(*number as usize) {
            let gain = column.reduced_gain(&dual_problem.multipliers);
            if gain > 0 {
                bar(multipliers, &dual_problem.node, column, gain);
            }
        }
    }
}

/// The multipliers above 0, behind the numbers of their rows on the side.
fn entries(
    alloc: Global,
    layout: &Layout,
    multipliers: &[u64],
) -> Result<Vec<(u32, u64)>, AllocError> {
    let mut entries = Vec::new(alloc);
    for (number, multiplier) in layout.rows.numbers.iter().zip(multipliers) {
        if *multiplier > 0 {
            entries.push((*number, *multiplier))?;
        }
    }
    Ok(entries)
}

fn dual_solution(
    alloc: Global,
    layout: &Layout,
    dual_problem: &LagrangianDual,
) -> Result<DualSolution, AllocError> {
    let mut multipliers = copy_of(alloc, &dual_problem.multipliers)?;
    multipliers.resize(layout.rows.numbers.len(), 0)?;
    add_steps(&mut multipliers, layout, dual_problem);
    bar_all(&mut multipliers, layout, dual_problem);
    Ok(DualSolution {
        scale: layout.scale,
        multipliers: entries(alloc, layout, &multipliers)?,
    })
}

/// The branching variable: of those that some multipliers take and others don't, the one of least reduced gain.
fn branch_of(layout: &Layout, dual_problem: &LagrangianDual) -> Option<u32> {
    let mut branch = None;
    let mut least = u64::MAX;
    let split = &dual_problem.relaxation.split;
    for (number, (column, is_split)) in layout.columns.iter().zip(split).enumerate() {
        if *is_split {
            let size = column.reduced_gain_size(&dual_problem.multipliers);
            if size < least {
                least = size;
                branch = Some(numbered(number));
            }
        }
    }
    branch
}

fn bound_of(
    alloc: Global,
    layout: &Layout,
    dual_problem: &mut LagrangianDual,
) -> Result<NodeBound, AllocError> {
    let status = dual_problem.minimise(alloc, layout)?;
    let mut found = nothing();
    found.candidate = dual_problem.candidate.take();
    if status == BoundStatus::Fathomed {
        found.dual = Some(dual_solution(alloc, layout, dual_problem)?);
    } else {
        found.branch = branch_of(layout, dual_problem);
    }
    Ok(found)
}

fn bounded_side(alloc: Global, layout: Layout) -> Result<BoundedSide, AllocError> {
    let dual_problem = LagrangianDual::new(alloc, &layout)?;
    Ok(BoundedSide {
        layout,
        dual_problem,
    })
}

impl Guide for DualBound {
    ghost use Rattle.lagrangian_bound.specs.Guiding.{any_answer};

    ghost answers = { any_answer };

    fn of(alloc: Global, side: &Side) -> Result<DualBound, AllocError> {
        let bounded = match Layout::of(alloc, side)? {
            Some(layout) => Some(bounded_side(alloc, layout)?),
            None => None,
        };
        Ok(DualBound {
            bounded,
            first: None,
        })
    }

    fn at_node(
        &mut self,
        alloc: Global,
        side: &Side,
        marks: &[Fixing],
        best: u128,
    ) -> Result<NodeBound, AllocError> {
        let Some(bounded) = &mut self.bounded else {
            return Ok(nothing());
        };
        let layout = &bounded.layout;
        let dual_problem = &mut bounded.dual_problem;
        let target = scaled_target(side, layout, best);
        dual_problem.node.restart(layout, marks, target)?;
        if let Some(place) = dual_problem.node.exceeded {
            let mut found = nothing();
            found.exceeded = layout.rows.number_of(place);
            return Ok(found);
        }
        dual_problem.restart(layout)?;
        let found = bound_of(alloc, layout, dual_problem)?;
        let value = unscaled(side, layout, dual_problem.relaxation.value);
        self.first = self.first.or(Some(value));
        Ok(found)
    }

    fn bound(&self) -> Option<u128> {
        self.first
    }
}
