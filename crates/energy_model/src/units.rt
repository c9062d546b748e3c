ghost use Rattle.std.specs.Prelude.{◌≡◌, ◌+◌, ◌*◌, ◌<◌, ◌≤◌, false, length};
ghost use Rattle.block_splitter.specs.Forms.{body_at};
ghost use Rattle.energy_model.specs.{Energy.{data_price}, Priced.{unit_price, units_price}, Base.{body_price, ended_price, part_price}};

use board_config::Prices;
use code_blocks::{Block, Unit};
use object_machine::Outcome;
use rv32im::Instr;

/// What the access of an instruction costs in main memory, if it is a load or a store.
fn data_price(instr: &Option<Instr>, prices: &Prices) -> u32
    ensures { result ≡ data_price prices.now false instr.now }
{
    match instr {
        Some(Instr::Load { .. }) => prices.main_read,
        Some(Instr::Store { .. }) => prices.main_write,
        _ => 0,
    }
}

/// What a unit costs in main memory, where the machine goes on behind it.
fn unit_price(unit: &Unit, prices: &Prices) -> u64
    ensures { result ≡ unit_price prices.now unit.now }
{
    let fetches = u64::from(unit.words) * u64::from(prices.main_fetch);
    fetches + u64::from(data_price(&unit.instr, prices))
}

/// What the first `count` units of a block cost in main memory.
fn units_price(block: &Block, count: usize, prices: &Prices) -> u128
    requires { count ≤ length block.now.units.items }
    ensures sum { result ≡ units_price prices.now block.now.units.items count }
    ensures small { result ≤ count * 18446744073709551615 }
{
    let mut total: u128 = 0;
    for k in 0..count {
        total += u128::from(unit_price(&block.units[k], prices));
    }
    total
}

/// What all units of a block cost.
fn whole_price(block: &Block, prices: &Prices) -> u128
    ensures { result ≡ units_price prices.now block.now.units.items (length block.now.units.items) }
{
    units_price(block, block.units.len(), prices)
}

/// What all units of block `k` cost.
pub(crate) fn block_price(blocks: &[Block], k: usize, prices: &Prices) -> u128
    requires { k < length blocks.now }
    ensures { result ≡ body_price prices.now (body_at blocks.now k) }
{
    whole_price(&blocks[k], prices)
}

/// What a unit costs behind which the machine is in this outcome: the fetch of its own word alone, where it ended.
fn ended_price(unit: &Unit, outcome: &Outcome, prices: &Prices) -> u64
    ensures { result ≡ ended_price prices.now outcome.now unit.now }
{
    match outcome {
        Outcome::GoesOn => unit_price(unit, prices),
        Outcome::Exited(_) | Outcome::Trapped { .. } | Outcome::AddressFault { .. } => {
            u64::from(prices.main_fetch)
        }
    }
}

/// What block `k` costs where `before` of its units ran, and one more that led to this outcome.
pub(crate) fn part_price(
    blocks: &[Block],
    k: usize,
    before: usize,
    outcome: &Outcome,
    prices: &Prices,
) -> u128
    requires inside { k < length blocks.now }
    requires units { before < length (body_at blocks.now k).units }
    ensures sum { result ≡ part_price prices.now outcome.now (body_at blocks.now k) before }
    ensures small { result ≤ (before + 1) * 18446744073709551615 }
{
    let block = &blocks[k];
    let last = ended_price(&block.units[before], outcome, prices);
    units_price(block, before, prices) + u128::from(last)
}
