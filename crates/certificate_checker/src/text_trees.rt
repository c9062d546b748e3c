ghost use Rattle.std.specs.Prelude.{◌≡◌, ℕ, ◌^◌, ◌<◌, ◌≤◌, length, Some, None, Err, option_map, IfSome};
ghost use Rattle.placement_programme.specs.Views.{plain_side, plain_programme};
ghost use Rattle.certificate_checker.specs.{Reading.{tree_at, most_levels, trees_at, trees_for}, Tallies.{HasRoomFor, HasSameRoomFor}, Walks.{SideAnswers}, RowWise.{rows_of, IsOfSide}, Rooms.{gain_if, gain_behind, used, SideRead, TreesRead, RoomFits, KeepsChoiceAndSizes}};

use crate::assignments::Assignment;
use crate::dual_prices::DualPrices;
use crate::fault::CertFault;
use crate::fields::{Part, number_in};
use crate::rooms::Room;
use crate::steps::PathStep;
use crate::tasks::Task;
use crate::text_walk::walk_text;
use crate::walking::Failing;
use placement_programme::{Programme, Side};

/// What the trees of both sides are answered.
#[derive(Drop)]
pub(crate) struct Outcomes {
    pub off: Result<(), Failing>,
    pub on: Result<(), Failing>,
}

/// The gain that a tree is judged for, 0 where there is none.
fn used(best: Option<u128>) -> u128
    requires { IfSome best (λ b. b ≤ 2 ^ 104) }
    ensures value { result ≡ used best }
    ensures small { result ≤ 2 ^ 104 }
{
    match best {
        Some(gain) => gain,
        None => 0,
    }
}

/// Whether trees are judged for a gain, and not only read.
fn is_judged(best: Option<u128>) -> bool
    ensures { gain_if result (used best) ≡ best }
{
    match best {
        Some(_) => true,
        None => false,
    }
}

/// The gain that a second tree is judged for: behind one that fails it is only read.
fn gain_behind(best: Option<u128>, first: &Result<(), Failing>) -> Option<u128>
    ensures { result ≡ gain_behind best first.now }
{
    match first {
        Ok(_) => best,
        Err(_) => None,
    }
}

fn first_node() -> Result<(), Failing>
    ensures { result ≡ Err record { node = 0; depth = 0 } }
{
    Err(Failing { node: 0, depth: 0 })
}

/// Walks over the tree of a side, from marks that are all free.
#[tactic(auto, using(crate::proofs::TallyLemmas::same_room))]
fn walk_side<'a>(
    task: &Task,
    assignment: &mut Assignment,
    path: &mut [PathStep],
    prices: &mut DualPrices,
    bytes: &'a [u8],
) -> Result<(Result<(), Failing>, &'a [u8]), CertFault>
    requires best { task.now.best ≤ 2 ^ 104 }
    requires by_row { IsOfSide (plain_side task.now.side.now) (rows_of task.now.by_row.now) }
    requires levels { task.now.levels < 2 ^ 31 }
    requires path { task.now.levels ≤ length path.old }
    requires assignment { HasRoomFor (plain_side task.now.side.now) assignment.old }
    requires room { length (plain_side task.now.side.now).vars ≤ length prices.old.list.items }
    ensures same { HasSameRoomFor assignment.old assignment.new }
    ensures prices { length prices.new.list.items ≡ length prices.old.list.items }
    ensures read { SideRead (Some (plain_side task.now.side.now)) (gain_if task.now.judged task.now.best) result (tree_at task.now.total task.now.levels bytes.now) }
{
    assignment.restart(task.side);
    prices.forget(bytes.len());
    match walk_text(task, assignment, path, prices, bytes) {
        Err(fault) => Err(fault),
        Ok((Ok(_), rest)) => Ok((Ok(()), rest)),
        Ok((Err(failing), rest)) => Ok((Err(failing), rest)),
    }
}

/// Walks over the tree of the side without overlay.
#[tactic(auto, unfolding(crate::specs::Reading::most_levels))]
fn off_tree<'a>(
    p: &Programme,
    best: Option<u128>,
    room: &mut Room,
    total: usize,
    bytes: &'a [u8],
) -> Result<(Result<(), Failing>, &'a [u8]), CertFault>
    requires best { IfSome best (λ b. b ≤ 2 ^ 104) }
    requires room { RoomFits p.now room.old }
    ensures read { SideRead (Some (plain_side p.now.off)) best result (tree_at total most_levels bytes.now) }
    ensures kept { KeepsChoiceAndSizes room.old room.new }
{
    let task = Task {
        side: &p.off,
        by_row: &room.off_rows,
        judged: is_judged(best),
        best: used(best),
        total,
        levels: 4097,
    };
    walk_side(
        &task,
        &mut room.off,
        &mut room.path,
        &mut room.prices,
        bytes,
    )
}

/// Walks over the tree of the side with overlay, which there is.
#[tactic(auto, unfolding(crate::specs::Reading::most_levels))]
fn overlay_tree<'a>(
    side: &Side,
    best: Option<u128>,
    room: &mut Room,
    total: usize,
    bytes: &'a [u8],
) -> Result<(Result<(), Failing>, &'a [u8]), CertFault>
    requires best { IfSome best (λ b. b ≤ 2 ^ 104) }
    requires path { 4097 ≤ length room.old.path.items }
    requires assignment { HasRoomFor (plain_side side.now) room.old.on }
    requires room { length (plain_side side.now).vars ≤ length room.old.prices.list.items }
    requires by_row { IsOfSide (plain_side side.now) (rows_of room.old.on_rows) }
    ensures read { SideRead (Some (plain_side side.now)) best result (tree_at total most_levels bytes.now) }
    ensures kept { KeepsChoiceAndSizes room.old room.new }
{
    let task = Task {
        side,
        by_row: &room.on_rows,
        judged: is_judged(best),
        best: used(best),
        total,
        levels: 4097,
    };
    walk_side(&task, &mut room.on, &mut room.path, &mut room.prices, bytes)
}

/// Walks over the tree of the side with overlay; one without a side is read, and fails at its node 0.
fn on_tree<'a>(
    p: &Programme,
    best: Option<u128>,
    room: &mut Room,
    total: usize,
    bytes: &'a [u8],
) -> Result<(Result<(), Failing>, &'a [u8]), CertFault>
    requires best { IfSome best (λ b. b ≤ 2 ^ 104) }
    requires room { RoomFits p.now room.old }
    ensures kept { KeepsChoiceAndSizes room.old room.new }
    ensures read { SideRead (option_map plain_side p.now.on) best result (tree_at total most_levels bytes.now) }
{
    match &p.on {
        Some(side) => overlay_tree(side, best, room, total, bytes),
        None => match off_tree(p, None, room, total, bytes) {
            Err(fault) => Err(fault),
            Ok((_, rest)) => Ok((Err(Failing { node: 0, depth: 0 }), rest)),
        },
    }
}

/// What the side with overlay is answered where no tree comes for it.
fn no_on_tree(p: &Programme) -> Result<(), Failing>
    ensures { (best : ℕ) → SideAnswers (option_map plain_side p.now.on) best None result }
{
    match &p.on {
        Some(_) => first_node(),
        None => Ok(()),
    }
}

/// Walks over the trees where the choice is claimed to be optimal.
#[tactic(auto, unfolding(crate::specs::Reading::trees_at))]
fn claimed_trees<'a>(
    p: &Programme,
    best: Option<u128>,
    room: &mut Room,
    total: usize,
    bytes: &'a [u8],
) -> Result<(Outcomes, &'a [u8]), CertFault>
    requires best { IfSome best (λ b. b ≤ 2 ^ 104) }
    requires room { RoomFits p.now room.old }
    ensures kept { KeepsChoiceAndSizes room.old room.new }
    ensures read { TreesRead (plain_programme p.now) best result (trees_at total bytes.now) }
{
    let (count, rest) = number_in(Part::Head, 1, 2, total, bytes)?;
    let (off, rest) = off_tree(p, best, room, total, rest)?;
    if count == 1 {
        let on = no_on_tree(p);
        return Ok((Outcomes { off, on }, rest));
    }
    let (on, rest) = on_tree(p, gain_behind(best, &off), room, total, rest)?;
    Ok((Outcomes { off, on }, rest))
}

/// Walks over the trees that the text must have; without a gain they are only read.
pub(crate) fn text_trees<'a>(
    p: &Programme,
    best: Option<u128>,
    optimal: bool,
    room: &mut Room,
    total: usize,
    bytes: &'a [u8],
) -> Result<(Outcomes, &'a [u8]), CertFault>
    requires best { IfSome best (λ b. b ≤ 2 ^ 104) }
    requires room { RoomFits p.now room.old }
    ensures kept { KeepsChoiceAndSizes room.old room.new }
    ensures read { TreesRead (plain_programme p.now) best result (trees_for optimal total bytes.now) }
{
    if optimal {
        claimed_trees(p, best, room, total, bytes)
    } else {
        let off = first_node();
        let on = no_on_tree(p);
        Ok((Outcomes { off, on }, bytes))
    }
}
