ghost use Rattle.std.specs.Prelude.{◌≡◌, ◌+◌, ◌≤◌};
ghost use Rattle.board_config.specs.Board.{IsLawful};
ghost use Rattle.energy_model.specs.Priced.{direction_price};
ghost use Rattle.paid_energy.specs.Costs as costs;

use board_config::Board;
use flat_machine::FlatAccess;

/// Whether an address lies in the scratchpad.
// Inlined, as all that a step of a run pays for, here and below.
#[inline(always)]
fn is_fast(board: &Board, at: u32) -> bool
    ensures { result ≡ costs.is_fast board.now at }
{
    board.spm.base <= at && at - board.spm.base < board.spm.size
}

/// What a fetch at an address costs.
#[inline(always)]
fn fetch_cost(board: &Board, at: u32) -> u32
    ensures { result ≡ costs.fetch_cost board.now at }
{
    if is_fast(board, at) {
        board.prices.spm_fetch
    } else {
        board.prices.main_fetch
    }
}

/// What a load or a store costs, in the scratchpad or outside.
#[inline(always)]
fn direction_price(board: &Board, fast: bool, write: bool) -> u32
    ensures { result ≡ direction_price board.now.prices fast write }
{
    match (fast, write) {
        (true, true) => board.prices.spm_write,
        (true, false) => board.prices.spm_read,
        (false, true) => board.prices.main_write,
        (false, false) => board.prices.main_read,
    }
}

/// What the access of a step costs, 0 where it makes none.
#[inline(always)]
fn told_cost(board: &Board, access: Option<FlatAccess>) -> u32
    ensures { result ≡ costs.told_cost board.now access }
{
    match access {
        Some(access) => direction_price(board, is_fast(board, access.at), access.write),
        None => 0,
    }
}

/// What a step costs that fetches at an address and makes an access: its fetch, also one that traps, and the access.
#[inline(always)]
pub(crate) fn step_cost(board: &Board, at: u32, access: Option<FlatAccess>) -> u64
    requires { IsLawful board.now }
    ensures is { result ≡ costs.fetch_cost board.now at + costs.told_cost board.now access }
    ensures small { result ≤ 20000 }
{
    u64::from(fetch_cost(board, at)) + u64::from(told_cost(board, access))
}
