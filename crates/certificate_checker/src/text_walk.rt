ghost use Rattle.std.specs.Prelude.{◌≡◌, ℕ, suc, ◌+◌, ◌-◌, ◌^◌, ◌<◌, ◌≤◌, ◌↔◌, IsTrue, false, List, [], ◌∷◌, length, IfOk};
ghost use Rattle.placement_programme.specs.{Plain.{PlainSide}, Views.{plain_side}};
ghost use Rattle.certificate_checker.specs.{Nodes.{PlainTree}, Rules.{KeepsRule}, Shows.{all_free}, Prices.{AreFrom}, Tallies.{AreTallies, IsAssignmentOf}, LastDuals.{IsLast}, Walks.{Walks}, declared.fixings.Fixing.{Fixing}, Reading.{over_at, dual_at, tree_at}, RowWise.{rows_of, IsOfSide}, Loading.{IsSingle, SplitsFirst, WalksRead, WalksBehind, TreeWalked}, Ways.{text_of, first_answer, IsBefore, Stands, Advances, CanAdvance, left}};

use crate::assignments::Assignment;
use crate::dual_prices::{DualPrices, load_dual};
use crate::duals::loaded_holds;
use crate::fault::CertFault;
use crate::fields::{Part, below_all, cut_off, place, small_number};
use crate::skipping::skip_single;
use crate::steps::{PathStep, Progress, enter, is_done, leave};
use crate::tallied_rules::{tallied_leaf, tallied_over};
use crate::tasks::Task;
use crate::walking::{Failing, next_number};

/// A walk's answer and the bytes behind the tree.
type Walked<'a> = (Result<u32, Failing>, &'a [u8]);

/// What a node without children answers.
fn single(holds: bool, node: u32, depth: u32) -> Result<u32, Failing>
    ensures { (s : PlainSide) (best : ℕ) (marks : List Fixing) (t : PlainTree) → IsSingle t → (IsTrue holds ↔ KeepsRule s best marks t) → Walks s best marks t node depth result }
{
    if holds {
        Ok(next_number(node))
    } else {
        Err(Failing { node, depth })
    }
}

#[tactic(auto, unfolding(crate::specs::Reading::over_at))]
fn walk_over<'a>(
    task: &Task,
    assignment: &Assignment,
    node: u32,
    depth: u32,
    bytes: &'a [u8],
) -> Result<Walked<'a>, CertFault>
    requires { AreTallies (plain_side task.now.side.now) assignment.now }
    ensures { WalksRead (plain_side task.now.side.now) task.now.best assignment.now.marks.items node depth result (over_at task.now.total bytes.now) }
{
    match small_number(Part::Node, 0, task.total, bytes) {
        Err(fault) => Err(fault),
        Ok((row, rest)) => Ok((
            single(tallied_over(task.side, assignment, row), node, depth),
            rest,
        )),
    }
}

fn walk_dual<'a>(
    task: &Task,
    assignment: &Assignment,
    prices: &mut DualPrices,
    node: u32,
    depth: u32,
    bytes: &'a [u8],
) -> Result<Walked<'a>, CertFault>
    requires best { task.now.best ≤ 2 ^ 104 }
    requires tallies { AreTallies (plain_side task.now.side.now) assignment.now }
    requires by_row { IsOfSide (plain_side task.now.side.now) (rows_of task.now.by_row.now) }
    requires room { length (plain_side task.now.side.now).vars ≤ length prices.old.list.items }
    requires fresh { AreFrom (suc (length bytes.now)) prices.old.list.items }
    requires last { IsLast (plain_side task.now.side.now) assignment.now.marks.items prices.old }
    ensures same { length prices.new.list.items ≡ length prices.old.list.items }
    ensures last { IfOk result (λ r. IsLast (plain_side task.now.side.now) assignment.now.marks.items prices.new) }
    ensures fresh { AreFrom (length bytes.now) prices.new.list.items }
    ensures read { WalksRead (plain_side task.now.side.now) task.now.best assignment.now.marks.items node depth result (dual_at task.now.total bytes.now) }
{
    let rest = load_dual(task, &assignment.marks, prices, bytes)?;
    let holds = loaded_holds(
        task.side,
        task.best,
        prices.scale,
        assignment.bound,
        &prices.loaded,
    );
    Ok((single(holds, node, depth), rest))
}

/// Walks over a node that isn't a branch.
#[tactic(auto, unfolding(crate::specs::Reading::tree_at))]
fn walk_single<'a>(
    task: &Task,
    assignment: &Assignment,
    prices: &mut DualPrices,
    node: u32,
    depth: u32,
    bytes: &'a [u8],
) -> Result<Walked<'a>, CertFault>
    requires best { task.now.best ≤ 2 ^ 104 }
    requires tallies { AreTallies (plain_side task.now.side.now) assignment.now }
    requires by_row { IsOfSide (plain_side task.now.side.now) (rows_of task.now.by_row.now) }
    requires room { length (plain_side task.now.side.now).vars ≤ length prices.old.list.items }
    requires fresh { AreFrom (length bytes.now) prices.old.list.items }
    requires last { IsLast (plain_side task.now.side.now) assignment.now.marks.items prices.old }
    requires tag { (rest : List ℕ) → bytes.now ≡ 0 ∷ rest → ⊥ }
    ensures same { length prices.new.list.items ≡ length prices.old.list.items }
    ensures last { IfOk result (λ r. IsLast (plain_side task.now.side.now) assignment.now.marks.items prices.new) }
    ensures fresh { AreFrom (length bytes.now - 1) prices.new.list.items }
    ensures read { (levels : ℕ) → WalksRead (plain_side task.now.side.now) task.now.best assignment.now.marks.items node depth result (tree_at task.now.total (suc levels) bytes.now) }
{
    match bytes {
        [] => Err(cut_off(task.total)),
        [1, rest @ ..] => walk_over(task, assignment, node, depth, rest),
        [2, rest @ ..] => walk_dual(task, assignment, prices, node, depth, rest),
        [3, rest @ ..] => Ok((
            single(tallied_leaf(task.side, assignment, task.best), node, depth),
            rest,
        )),
        [_, ..] => Err(CertFault::BadNode {
            at: place(task.total, bytes),
        }),
    }
}

/// Walks over a node that isn't a branch, behind others: behind one that fails it is only read.
fn answer_single<'a>(
    task: &Task,
    assignment: &Assignment,
    prices: &mut DualPrices,
    so_far: Result<u32, Failing>,
    depth: u32,
    bytes: &'a [u8],
) -> Result<Walked<'a>, CertFault>
    requires best { task.now.best ≤ 2 ^ 104 }
    requires tallies { AreTallies (plain_side task.now.side.now) assignment.now }
    requires by_row { IsOfSide (plain_side task.now.side.now) (rows_of task.now.by_row.now) }
    requires room { length (plain_side task.now.side.now).vars ≤ length prices.old.list.items }
    requires fresh { AreFrom (length bytes.now) prices.old.list.items }
    requires last { IsLast (plain_side task.now.side.now) assignment.now.marks.items prices.old }
    requires tag { (rest : List ℕ) → bytes.now ≡ 0 ∷ rest → ⊥ }
    ensures same { length prices.new.list.items ≡ length prices.old.list.items }
    ensures last { IfOk result (λ r. IsLast (plain_side task.now.side.now) assignment.now.marks.items prices.new) }
    ensures fresh { AreFrom (length bytes.now - 1) prices.new.list.items }
    ensures read { (levels : ℕ) → WalksBehind (plain_side task.now.side.now) task.now.best assignment.now.marks.items so_far depth result (tree_at task.now.total (suc levels) bytes.now) }
{
    match so_far {
        Err(failing) => match skip_single(task.total, bytes) {
            Err(fault) => Err(fault),
            Ok(rest) => Ok((Err(failing), rest)),
        },
        Ok(node) => walk_single(task, assignment, prices, node, depth, bytes),
    }
}

fn first_byte(total: usize, bytes: &[u8]) -> Result<(u8, &[u8]), CertFault>
    ensures { SplitsFirst total bytes.now result }
{
    match bytes {
        [] => Err(cut_off(total)),
        [first, rest @ ..] => Ok((*first, rest)),
    }
}

/// Reads a branch's variable, and steps to its child for zero.
fn read_branch<'a>(
    task: &Task,
    assignment: &mut Assignment,
    path: &mut [PathStep],
    prices: &mut DualPrices,
    progress: Progress,
    bytes: &'a [u8],
) -> Result<(Progress, &'a [u8]), CertFault>
    requires exact { IsAssignmentOf (plain_side task.now.side.now) assignment.old }
    requires inside { progress.depth < length path.old }
    requires depth { progress.depth < 2 ^ 31 }
    requires room { length (plain_side task.now.side.now).vars ≤ length prices.old.list.items }
    requires last { IsLast (plain_side task.now.side.now) assignment.old.marks.items prices.old }
    ensures list { prices.new.list ≡ prices.old.list }
    ensures last { IsLast (plain_side task.now.side.now) assignment.new.marks.items prices.new }
    ensures exact { IsAssignmentOf (plain_side task.now.side.now) assignment.new }
    ensures reads { (levels : ℕ) (all : List ℕ) → progress.depth < levels
        → IsBefore (text_of (plain_side task.now.side.now) task.now.judged task.now.best task.now.total levels all) path.old assignment.old.marks.items progress.depth progress.so_far (0 ∷ bytes.now)
        → Advances (text_of (plain_side task.now.side.now) task.now.judged task.now.best task.now.total levels all) path.new assignment.new.marks.items result }
    ensures shorter { IfOk result (λ r. length r.1.now ≤ length bytes.now) }
    ensures left { IfOk result (λ r. left r.0 r.1.now < left progress (0 ∷ bytes.now)) }
    ensures depth { (levels : ℕ) → progress.depth < levels → IfOk result (λ r. r.0.depth ≤ levels) }
{
    let (var, rest) = small_number(Part::Node, 0, task.total, bytes)?;
    let depth = progress.depth;
    let so_far = enter(task.side, assignment, path, prices, progress, var);
    let entered = Progress {
        depth: depth + 1,
        ended: false,
        so_far,
    };
    Ok((entered, rest))
}

/// Reads a node that isn't a branch.
fn read_single<'a>(
    task: &Task,
    assignment: &Assignment,
    path: &[PathStep],
    prices: &mut DualPrices,
    progress: Progress,
    bytes: &'a [u8],
) -> Result<(Progress, &'a [u8]), CertFault>
    requires best { task.now.best ≤ 2 ^ 104 }
    requires tallies { AreTallies (plain_side task.now.side.now) assignment.now }
    requires by_row { IsOfSide (plain_side task.now.side.now) (rows_of task.now.by_row.now) }
    requires room { length (plain_side task.now.side.now).vars ≤ length prices.old.list.items }
    requires fresh { AreFrom (length bytes.now) prices.old.list.items }
    requires last { IsLast (plain_side task.now.side.now) assignment.now.marks.items prices.old }
    requires tag { (rest : List ℕ) → bytes.now ≡ 0 ∷ rest → ⊥ }
    ensures same { length prices.new.list.items ≡ length prices.old.list.items }
    ensures last { IfOk result (λ r. IsLast (plain_side task.now.side.now) assignment.now.marks.items prices.new) }
    ensures fresh { IfOk result (λ r. AreFrom (length r.1.now) prices.new.list.items) }
    ensures reads { (levels : ℕ) (all : List ℕ) → progress.depth < levels
        → IsBefore (text_of (plain_side task.now.side.now) task.now.judged task.now.best task.now.total levels all) path.now assignment.now.marks.items progress.depth progress.so_far bytes.now
        → Advances (text_of (plain_side task.now.side.now) task.now.judged task.now.best task.now.total levels all) path.now assignment.now.marks.items result }
    ensures left { progress.ended ≡ false → IfOk result (λ r. left r.0 r.1.now < left progress bytes.now) }
    ensures depth { (levels : ℕ) → progress.depth < levels → IfOk result (λ r. r.0.depth ≤ levels) }
{
    let depth = progress.depth;
    let (so_far, rest) = answer_single(task, assignment, prices, progress.so_far, depth, bytes)?;
    let behind = Progress {
        depth,
        ended: true,
        so_far,
    };
    Ok((behind, rest))
}

/// Reads the next node of a tree.
fn read_node<'a>(
    task: &Task,
    assignment: &mut Assignment,
    path: &mut [PathStep],
    prices: &mut DualPrices,
    progress: Progress,
    bytes: &'a [u8],
) -> Result<(Progress, &'a [u8]), CertFault>
    requires best { task.now.best ≤ 2 ^ 104 }
    requires exact { IsAssignmentOf (plain_side task.now.side.now) assignment.old }
    requires by_row { IsOfSide (plain_side task.now.side.now) (rows_of task.now.by_row.now) }
    requires room { length (plain_side task.now.side.now).vars ≤ length prices.old.list.items }
    requires fresh { AreFrom (length bytes.now) prices.old.list.items }
    requires last { IsLast (plain_side task.now.side.now) assignment.old.marks.items prices.old }
    requires levels { task.now.levels < 2 ^ 31 }
    requires inside { task.now.levels ≤ length path.old }
    requires depth { progress.depth ≤ task.now.levels }
    ensures same { length prices.new.list.items ≡ length prices.old.list.items }
    ensures last { IfOk result (λ r. IsLast (plain_side task.now.side.now) assignment.new.marks.items prices.new) }
    ensures exact { IsAssignmentOf (plain_side task.now.side.now) assignment.new }
    ensures fresh { IfOk result (λ r. AreFrom (length r.1.now) prices.new.list.items) }
    ensures reads { (all : List ℕ) → IsBefore (text_of (plain_side task.now.side.now) task.now.judged task.now.best task.now.total task.now.levels all) path.old assignment.old.marks.items progress.depth progress.so_far bytes.now
        → Advances (text_of (plain_side task.now.side.now) task.now.judged task.now.best task.now.total task.now.levels all) path.new assignment.new.marks.items result }
    ensures left { progress.ended ≡ false → IfOk result (λ r. left r.0 r.1.now < left progress bytes.now) }
    ensures depth { IfOk result (λ r. r.0.depth ≤ task.now.levels) }
{
    let (tag, rest) = first_byte(task.total, bytes)?;
    if progress.depth == task.levels {
        return Err(below_all(task.total, bytes, tag));
    }
    if tag == 0 {
        return read_branch(task, assignment, path, prices, progress, rest);
    }
    read_single(task, assignment, path, prices, progress, bytes)
}

/// One step forward: the next node is read, or the tree that was read is left.
fn advance<'a>(
    task: &Task,
    assignment: &mut Assignment,
    path: &mut [PathStep],
    prices: &mut DualPrices,
    progress: Progress,
    bytes: &'a [u8],
) -> Result<(Progress, &'a [u8]), CertFault>
    requires best { task.now.best ≤ 2 ^ 104 }
    requires exact { IsAssignmentOf (plain_side task.now.side.now) assignment.old }
    requires by_row { IsOfSide (plain_side task.now.side.now) (rows_of task.now.by_row.now) }
    requires room { length (plain_side task.now.side.now).vars ≤ length prices.old.list.items }
    requires fresh { AreFrom (length bytes.now) prices.old.list.items }
    requires last { IsLast (plain_side task.now.side.now) assignment.old.marks.items prices.old }
    requires levels { task.now.levels < 2 ^ 31 }
    requires inside { task.now.levels ≤ length path.old }
    requires depth { progress.depth ≤ task.now.levels }
    requires step { CanAdvance (plain_side task.now.side.now) path.old progress }
    ensures same { length prices.new.list.items ≡ length prices.old.list.items }
    ensures last { IfOk result (λ r. IsLast (plain_side task.now.side.now) assignment.new.marks.items prices.new) }
    ensures exact { IsAssignmentOf (plain_side task.now.side.now) assignment.new }
    ensures fresh { IfOk result (λ r. AreFrom (length r.1.now) prices.new.list.items) }
    ensures reads { (all : List ℕ) → Stands (text_of (plain_side task.now.side.now) task.now.judged task.now.best task.now.total task.now.levels all) path.old assignment.old.marks.items progress bytes.now
        → Advances (text_of (plain_side task.now.side.now) task.now.judged task.now.best task.now.total task.now.levels all) path.new assignment.new.marks.items result }
    ensures left { IfOk result (λ r. left r.0 r.1.now < left progress bytes.now) }
    ensures depth { IfOk result (λ r. r.0.depth ≤ task.now.levels) }
{
    if progress.ended {
        return Ok((leave(task.side, assignment, path, prices, progress), bytes));
    }
    read_node(task, assignment, path, prices, progress, bytes)
}

/// What a walk begins with: one that only reads begins behind a node that fails.
fn first_answer(judged: bool) -> Result<u32, Failing>
    ensures { result ≡ first_answer judged }
{
    if judged {
        Ok(0)
    } else {
        Err(Failing { node: 0, depth: 0 })
    }
}

/// Walks over a tree as it is read, with the steps to the present node in `path`.
pub(crate) fn walk_text<'a>(
    task: &Task,
    assignment: &mut Assignment,
    path: &mut [PathStep],
    prices: &mut DualPrices,
    bytes: &'a [u8],
) -> Result<Walked<'a>, CertFault>
    requires best { task.now.best ≤ 2 ^ 104 }
    requires exact { IsAssignmentOf (plain_side task.now.side.now) assignment.old }
    requires free { assignment.old.marks.items ≡ all_free (plain_side task.now.side.now) }
    requires by_row { IsOfSide (plain_side task.now.side.now) (rows_of task.now.by_row.now) }
    requires room { length (plain_side task.now.side.now).vars ≤ length prices.old.list.items }
    requires fresh { AreFrom (length bytes.now) prices.old.list.items }
    requires last { IsLast (plain_side task.now.side.now) assignment.old.marks.items prices.old }
    requires levels { task.now.levels < 2 ^ 31 }
    requires inside { task.now.levels ≤ length path.old }
    ensures same { length prices.new.list.items ≡ length prices.old.list.items }
    ensures exact { IsAssignmentOf (plain_side task.now.side.now) assignment.new }
    ensures walked { TreeWalked (plain_side task.now.side.now) task.now.judged task.now.best result (tree_at task.now.total task.now.levels bytes.now) }
{
    let so_far = first_answer(task.judged);
    let mut progress = Progress {
        depth: 0,
        ended: false,
        so_far,
    };
    let mut rest = bytes;
    while !is_done(&progress) {
        let (next, behind) = advance(task, assignment, path, prices, progress, rest)?;
        progress = next;
        rest = behind;
    }
    Ok((progress.so_far, rest))
}
