ghost use Rattle.std.specs.Prelude.{◌≡◌, ◌≤◌, length, option_map, IfOk, IfSome};
ghost use Rattle.placement_programme.specs.Views.{plain_side};
ghost use Rattle.certificate_checker.specs.{RowWise.{rows_of, IsOfSide}, Tallies.{HasRoomFor}, Rooms.{RoomFits, IsRoomOf, most_of}};

use crate::assignments::Assignment;
use crate::dual_prices::DualPrices;
use crate::fixings::free_marks;
use crate::row_wise::RowWise;
use crate::steps::PathStep;
use placement_programme::{Choice, Programme, Side};
use std::alloc::{AllocError, Global};

/// The room in which certificates of a programme are checked as they are read. It may be used again after every answer.
#[derive(Drop)]
pub struct Room {
    /// What is fixed of the side without overlay.
    pub off: Assignment,
    /// What is fixed of the side with overlay, where there is one.
    pub on: Assignment,
    /// A step for each depth, 4,097, with which the way from the root to a node is told.
    pub path: Vec<PathStep>,
    /// The prices of a dual node, for each variable of the longer side.
    pub prices: DualPrices,
    /// The weights of the side without overlay, by rows.
    pub off_rows: RowWise,
    /// Those of the side with overlay, where there is one.
    pub on_rows: RowWise,
    /// The choice of the certificate that was read last.
    pub choice: Choice,
}

fn most_vars(p: &Programme) -> usize
    ensures { result ≡ most_of (length p.now.off.vars.items) (option_map (λ s. length s.vars.items) p.now.on) }
{
    match &p.on {
        Some(side) => side.vars.len().max(p.off.vars.len()),
        None => p.off.vars.len(),
    }
}

fn free_side(alloc: Global, side: &Side) -> Result<Assignment, AllocError>
    ensures { IfOk result (HasRoomFor (plain_side side.now)) }
{
    let marks = free_marks(alloc, side)?;
    let assignment = Assignment::of(alloc, side, marks)?;
    Ok(assignment)
}

/// What is fixed of the side with overlay, nothing where there is no such side.
fn free_overlay(alloc: Global, p: &Programme) -> Result<Assignment, AllocError>
    ensures { IfOk result (λ a. IfSome p.now.on (λ s. HasRoomFor (plain_side s) a)) }
{
    match &p.on {
        Some(side) => free_side(alloc, side),
        None => Ok(Assignment {
            marks: Vec::new(alloc),
            loads: Vec::new(alloc),
            gains: 0,
            bound: 0,
            free_count: 0,
        }),
    }
}

/// The weights of the side with overlay by rows, none where there is no such side.
fn overlay_rows(alloc: Global, p: &Programme) -> Result<RowWise, AllocError>
    ensures { IfOk result (λ w. IfSome p.now.on (λ s. IsOfSide (plain_side s) (rows_of w))) }
{
    match &p.on {
        Some(side) => RowWise::of(alloc, side),
        None => Ok(RowWise {
            rows: Vec::new(alloc),
        }),
    }
}

fn steps_of(alloc: Global, count: usize) -> Result<Vec<PathStep>, AllocError>
    ensures { IfOk result (λ v. length v.items ≡ count) }
{
    let first = PathStep {
        var: 0,
        taken: false,
    };
    vec![in alloc; first; count]
}

impl Room {
    /// Takes the room for a programme: all the memory that its checks use.
    pub fn new(alloc: Global, p: &Programme) -> Result<Room, AllocError>
        ensures fits { IfOk result (λ room. RoomFits p.now room) }
        ensures exact { IfOk result (λ room. IsRoomOf p.now room) }
    {
        let vars = most_vars(p);
        let off = free_side(alloc, &p.off)?;
        let on = free_overlay(alloc, p)?;
        let path = steps_of(alloc, 4097)?;
        let prices = DualPrices::new(alloc, vars)?;
        let off_rows = RowWise::of(alloc, &p.off)?;
        let on_rows = overlay_rows(alloc, p)?;
        let take = Vec::with_capacity(alloc, vars)?;
        let choice = Choice { on: false, take };
        Ok(Room {
            off,
            on,
            path,
            prices,
            off_rows,
            on_rows,
            choice,
        })
    }
}
