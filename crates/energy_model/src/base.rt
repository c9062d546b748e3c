ghost use Rattle.std.specs.Prelude.{◌≡◌, ◌+◌, ◌-◌, ◌*◌, ◌^◌, ◌<◌, ◌≤◌, length, slice_index_or};
ghost use Rattle.energy_model.specs.Base.{body_price, arrived_price, part_price, CountsEnergy, IsCounted};
ghost use Rattle.block_splitter.specs.Forms.{body_at};

use crate::units::{block_price, part_price};
use board_config::Prices;
use code_blocks::Block;
use profile_runner::Profile;

/// How often block `k` began.
fn arrivals_of(profile: &Profile, k: usize) -> u64
    requires { k < length profile.now.arrivals.items }
    ensures { result ≡ slice_index_or profile.now.arrivals.items k 0 }
{
    profile.arrivals[k]
}

fn times(count: u64, price: u128) -> u128
    requires { count * price < 2 ^ 100 }
    ensures { result ≡ count * price }
{
    u128::from(count) * price
}

/// What block `k` costs, as often as it began.
fn started_price(blocks: &[Block], profile: &Profile, k: usize, prices: &Prices) -> u128
    requires inside { k < length blocks.now }
    requires counted { k < length profile.now.arrivals.items }
    requires small { slice_index_or profile.now.arrivals.items k 0 * body_price prices.now (body_at blocks.now k) < 2 ^ 100 }
    ensures { result ≡ slice_index_or profile.now.arrivals.items k 0 * body_price prices.now (body_at blocks.now k) }
{
    times(arrivals_of(profile, k), block_price(blocks, k, prices))
}

/// What all blocks cost, each as often as it began.
fn blocks_price(blocks: &[Block], profile: &Profile, prices: &Prices) -> u128
    requires same { length profile.now.arrivals.items ≡ length blocks.now }
    requires small { arrived_price prices.now blocks.now profile.now.arrivals.items (length blocks.now) < 2 ^ 100 }
    ensures { result ≡ arrived_price prices.now blocks.now profile.now.arrivals.items (length blocks.now) }
{
    let mut total = 0;
    for k in 0..blocks.len() {
        total += started_price(blocks, profile, k, prices);
    }
    total
}

/// What was counted of all blocks and of the part of the last one that ran, less that one whole.
fn difference(whole: u128, part: u128, last: u128) -> u128
    requires whole { whole < 2 ^ 100 }
    requires part { part < 2 ^ 100 }
    requires enough { last ≤ whole + part }
    ensures { result + last ≡ whole + part }
{
    whole + part - last
}

/// What a run costs with all code and data in main memory, by its profile.
///
/// Each block ran whole as often as it began, but the last one, whose last unit may have ended the run.
pub fn base_of(blocks: &[Block], profile: &Profile, prices: &Prices) -> u128
    requires { CountsEnergy prices.now blocks.now profile.now }
    ensures { IsCounted prices.now blocks.now profile.now result }
{
    let (block, units) = profile.last;
    let k = block as usize;
    let whole = blocks_price(blocks, profile, prices);
    let part = part_price(blocks, k, units as usize - 1, &profile.outcome, prices);
    difference(whole, part, block_price(blocks, k, prices))
}
