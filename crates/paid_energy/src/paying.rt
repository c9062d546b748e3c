ghost use Rattle.std.specs.Prelude.{◌≡◌, ◌<◌, ◌^◌, length, IfOk};
ghost use Rattle.board_config.specs.Board.{IsLawful};
ghost use Rattle.flat_machine.specs.{Known.{AreKnown}, Machine.{state_of}};
ghost use Rattle.paid_energy.specs.FlatRuns.{PaysRun};

use crate::costs::step_cost;
use board_config::Board;
use flat_machine::{Flat, FlatOutcome, Known};
use paged_store::ByteStore;
use rv32im::one_instruction;
use std::alloc::AllocError;

/// What a run of the flat machine came to.
#[derive(Clone, Copy, PartialEq, Eq)]
pub struct PaidRun {
    /// What became of the machine.
    pub outcome: FlatOutcome,
    /// How many steps it took.
    pub steps: u64,
    /// What their fetches, loads and stores cost, in the units of the board's prices. Bytes that calls move cost nothing.
    pub energy: u128,
}

/// Takes steps of a machine that goes on, until it ends or `limit` steps were taken, and adds up what they cost.
///
/// It fails only where no memory was left; the contract says nothing of the machine then.
pub fn paid<S: ByteStore>(
    flat: &mut Flat<S>,
    board: &Board,
    limit: u128,
) -> Result<PaidRun, AllocError>
    requires lawful { IsLawful board.now }
    requires going { (state_of S.byte_at flat.old).outcome ≡ FlatOutcome.GoesOn }
    requires few { limit < 2 ^ 63 }
    ensures { IfOk result (λ r. PaysRun board.now limit (state_of S.byte_at flat.old) r.outcome r.steps r.energy) }
{
    let mut known = flat.nothing_known()?;
    pay_steps(flat, board, limit as u64, &mut known)
}

/// The same, over a table of the instructions that the machine decoded so far.
fn pay_steps<S: ByteStore>(
    flat: &mut Flat<S>,
    board: &Board,
    limit: u64,
    known: &mut [Known],
) -> Result<PaidRun, AllocError>
    requires lawful { IsLawful board.now }
    requires going { (state_of S.byte_at flat.old).outcome ≡ FlatOutcome.GoesOn }
    requires few { limit < 2 ^ 63 }
    requires len { length known.old ≡ 4096 }
    requires known { let s = state_of S.byte_at flat.old in AreKnown s.map s.hart.mem known.old }
    ensures { IfOk result (λ r. PaysRun board.now limit (state_of S.byte_at flat.old) r.outcome r.steps r.energy) }
{
    one_instruction();
    let mut steps = 0;
    let mut energy = 0;
    for _ in 0..limit {
        if flat.has_ended() {
            break;
        }
        let at = flat.at();
        let access = flat.step_telling(known)?;
        steps += 1;
        energy += u128::from(step_cost(board, at, access));
    }
    Ok(PaidRun {
        outcome: flat.outcome(),
        steps,
        energy,
    })
}
