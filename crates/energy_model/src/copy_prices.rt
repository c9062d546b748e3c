ghost use Rattle.std.specs.Prelude.{◌≡◌, ◌+◌, ◌*◌, ◌^◌, ◌<◌, if◌then◌else◌};
ghost use Rattle.energy_model.specs.Energy.{object_rounds, job_price, into_price, back_price};

use board_config::Prices;
use object_graph::Object;

/// How many rounds the loop has that copies an object: by words, where its home and size allow that.
pub fn object_rounds(object: &Object) -> u32
    ensures { result ≡ object_rounds object.now }
{
    if object.home % 4 == 0 && object.size % 4 == 0 {
        object.size / 4
    } else {
        object.size
    }
}

/// What the fetches of a copy loop of so many rounds cost.
fn loop_price(rounds: u32, fetch: u32) -> u128
    ensures sum { result ≡ (6 + 5 * rounds) * fetch }
    ensures small { result < 2 ^ 68 }
{
    (6 + 5 * u128::from(rounds)) * u128::from(fetch)
}

/// What a copy loop of so many rounds costs, from memory with one price of a read to memory with one of a write.
fn job_price(rounds: u32, prices: &Prices, read: u32, write: u32) -> u128
    ensures sum { result ≡ job_price prices.now read write rounds }
    ensures small { result < 2 ^ 70 }
{
    let reads = u64::from(rounds) * u64::from(read);
    let writes = u64::from(rounds) * u64::from(write);
    loop_price(rounds, prices.main_fetch) + u128::from(reads) + u128::from(writes)
}

/// What a copy loop of so many rounds costs that copies into the scratchpad.
pub fn into_price(rounds: u32, prices: &Prices) -> u128
    ensures sum { result ≡ into_price prices.now rounds }
    ensures small { result < 2 ^ 70 }
{
    job_price(rounds, prices, prices.main_read, prices.spm_write)
}

/// What the copy loop of an object costs that copies it back, where it is writable.
pub fn back_price(object: &Object, prices: &Prices) -> u128
    ensures sum { result ≡ (if object.now.writable then back_price prices.now (object_rounds object.now) else 0) }
    ensures small { result < 2 ^ 70 }
{
    if object.writable {
        job_price(
            object_rounds(object),
            prices,
            prices.spm_read,
            prices.main_write,
        )
    } else {
        0
    }
}
