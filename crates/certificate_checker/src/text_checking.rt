ghost use Rattle.std.specs.Prelude.{◌≡◌, ℕ, ◌^◌, ◌≤◌, length, IfSome, MatchOption, vec_capacity};
ghost use Rattle.placement_programme.specs.{Views.{plain_programme, plain_choice}, Programme.{side_for}};
ghost use Rattle.certificate_checker.specs.{Shows.{IsAccepted}, Reading.{choice_at, body_at, certificate_of}, Rooms.{vars_of, Chooses, BodyAnswers, RoomFits, HasSameRoom, verdict_for}, Views.{plain_verdict}};

use crate::fault::CertFault;
use crate::fields::{Part, flag, mark, place, small_number};
use crate::rooms::Room;
use crate::taking::take_vars;
use crate::text_trees::{Outcomes, text_trees};
use crate::verdict::Verdict;
use placement_programme::{Choice, Programme, feasible, gain_of};

/// What a choice gains, if it is feasible and that is at least 0.
pub fn accepted(p: &Programme, choice: &Choice) -> Option<u128>
    ensures accepted { MatchOption result ((best : ℕ) → IsAccepted (plain_programme p.now) (plain_choice choice.now) best → ⊥) (IsAccepted (plain_programme p.now) (plain_choice choice.now)) }
    ensures small { IfSome result (λ best. best ≤ 2 ^ 104) }
{
    if !feasible(p, choice) {
        return None;
    }
    let gain = gain_of(p, choice);
    if gain < 0 { None } else { Some(gain as u128) }
}

/// How many variables a side of the programme has, 0 where it has no such side.
fn side_vars(p: &Programme, on: bool) -> usize
    ensures { result ≡ vars_of (side_for (plain_programme p.now) on) }
{
    if !on {
        return p.off.vars.len();
    }
    match &p.on {
        Some(side) => side.vars.len(),
        None => 0,
    }
}

/// Reads a choice into its room, and returns its gain where it is accepted.
#[tactic(auto, unfolding(crate::specs::Reading::choice_at))]
fn take_choice<'a>(
    p: &Programme,
    choice: &mut Choice,
    total: usize,
    bytes: &'a [u8],
) -> Result<(Option<u128>, &'a [u8]), CertFault>
    requires off { length p.now.off.vars.items ≤ vec_capacity choice.old.take }
    requires on { IfSome p.now.on (λ s. length s.vars.items ≤ vec_capacity choice.old.take) }
    ensures chooses { Chooses (plain_programme p.now) (plain_choice choice.new) result (choice_at total bytes.now) }
    ensures capacity { vec_capacity choice.old.take ≤ vec_capacity choice.new.take }
{
    let (on, rest) = flag(total, bytes)?;
    let (count, rest) = small_number(Part::Head, 0, total, rest)?;
    let limit = side_vars(p, on);
    choice.on = on;
    let (row_end, rest) = take_vars(&mut choice.take, limit, count, total, rest)?;
    if row_end > limit as u64 {
        return Ok((None, rest));
    }
    Ok((accepted(p, choice), rest))
}

/// The verdict by what the choice and the trees are answered.
fn verdict_of(best: Option<u128>, optimal: bool, trees: Outcomes) -> Verdict
    ensures { plain_verdict result ≡ verdict_for best optimal trees.off trees.on }
{
    if best.is_none() {
        return Verdict::BadChoice;
    }
    if !optimal {
        return Verdict::BestFound;
    }
    match trees.off {
        Err(failing) => Verdict::Wrong {
            side: 0,
            node: failing.node,
            depth: failing.depth,
        },
        Ok(()) => match trees.on {
            Err(failing) => Verdict::Wrong {
                side: 1,
                node: failing.node,
                depth: failing.depth,
            },
            Ok(()) => Verdict::Optimal,
        },
    }
}

/// Checks the bytes behind the mark.
#[tactic(auto, unfolding(crate::specs::Reading::body_at))]
fn check_body(
    p: &Programme,
    room: &mut Room,
    total: usize,
    bytes: &[u8],
) -> Result<Verdict, CertFault>
    requires { RoomFits p.now room.old }
    ensures answers { BodyAnswers (plain_programme p.now) (plain_choice room.new.choice) result (body_at total bytes.now) }
    ensures same { HasSameRoom room.old room.new }
{
    let (optimal, rest) = flag(total, bytes)?;
    let (best, rest) = take_choice(p, &mut room.choice, total, rest)?;
    let (trees, rest) = text_trees(p, best, optimal, room, total, rest)?;
    if rest.is_empty() {
        Ok(verdict_of(best, optimal, trees))
    } else {
        Err(CertFault::Trailing {
            at: place(total, rest),
        })
    }
}

/// What the certificate that the bytes spell shows of a programme, or the first byte that breaks the grammar, also where a node
/// before it fails:
///
/// the bytes 53 50 43 31; 00 for best found or 01 for optimal; 00 for off or 01 for on; the count of taken variables and
/// their numbers, ascending; where optimal the count of trees, 1 or 2, and the off and the on tree. A tree is 00, a variable
/// and the trees for zero and one; 01 and a row; 02, a scale, a count and so many rows, ascending, each with a multiplier; or
/// 03. Numbers are unsigned LEB128 in the shortest form, below 2^64. A root has depth 0, and no node a depth over 4,096.
///
/// The text is checked as it is read, once and without memory of its own. A number of the choice that is no variable makes it
/// BadChoice. After Optimal and BestFound the room has the certificate's choice. The room is one that fits the programme, as
/// `Room::new` makes it, and stays so.
#[tactic(auto, unfolding(crate::specs::Reading::certificate_of))]
pub fn check_text(p: &Programme, bytes: &[u8], room: &mut Room) -> Result<Verdict, CertFault>
    requires { RoomFits p.now room.old }
    ensures answers { BodyAnswers (plain_programme p.now) (plain_choice room.new.choice) result (certificate_of bytes.now) }
    ensures fits { RoomFits p.now room.new }
    ensures same { HasSameRoom room.old room.new }
{
    match mark(bytes.len(), bytes) {
        Err(fault) => Err(fault),
        Ok(rest) => check_body(p, room, bytes.len(), rest),
    }
}
