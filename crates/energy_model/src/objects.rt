ghost use Rattle.std.specs.Prelude.{◌≡◌, ◌+◌, ◌-◌, ◌*◌, ◌^◌, ◌<◌, ◌≤◌, true, false, length, if◌then◌else◌};
ghost use Rattle.energy_model.specs.{Overlay.{reads_in, writes_in, accesses_price, twin_switches}, Gains.{overlaid_counts, kept_counts, object_copied, object_saves, AreSmallCounts, HasPlace, HasSwitches}};

use crate::copy_prices::{back_price, into_price, object_rounds};
use crate::object_counts::ObjectCounts;
use crate::switches::switches_of;
use board_config::Prices;
use object_graph::Object;
use profile_runner::Profile;

/// What the copies of an object cost.
fn copied_price(object: &Object, counts: &ObjectCounts, prices: &Prices) -> u128
    requires { AreSmallCounts counts.now }
    ensures sum { result ≡ object_copied prices.now object.now counts.now.enters counts.now.leaves }
    ensures small { result < 2 ^ 110 }
{
    let enters = u128::from(counts.enters) * into_price(object_rounds(object), prices);
    enters + u128::from(counts.leaves) * back_price(object, prices)
}

/// What the accesses to an object cost in main memory.
fn home_price(counts: &ObjectCounts, prices: &Prices) -> u128
    requires { AreSmallCounts counts.now }
    ensures sum { result ≡ accesses_price prices.now false counts.now.reads counts.now.writes }
    ensures small { result < 2 ^ 70 }
{
    let reads = u128::from(counts.reads) * u128::from(prices.main_read);
    reads + u128::from(counts.writes) * u128::from(prices.main_write)
}

/// What the accesses to an object cost in the scratchpad.
fn moved_price(counts: &ObjectCounts, prices: &Prices) -> u128
    requires { AreSmallCounts counts.now }
    ensures sum { result ≡ accesses_price prices.now true counts.now.reads counts.now.writes }
    ensures small { result < 2 ^ 70 }
{
    let reads = u128::from(counts.reads) * u128::from(prices.spm_read);
    reads + u128::from(counts.writes) * u128::from(prices.spm_write)
}

/// What an object saves in the scratchpad, of which this is counted, less the price of its copies.
pub fn object_gain(object: &Object, counts: &ObjectCounts, prices: &Prices) -> i128
    requires { AreSmallCounts counts.now }
    ensures { result ≡ object_saves prices.now object.now counts.now }
{
    let moved = moved_price(counts, prices) + copied_price(object, counts, prices);
    home_price(counts, prices) as i128 - moved as i128
}

fn reads_in(profile: &Profile, object: usize, region: usize) -> u64
    requires { HasPlace profile.now object region }
    ensures { result ≡ reads_in profile.now object region }
{
    profile.reads[object][region]
}

fn writes_in(profile: &Profile, object: usize, region: usize) -> u64
    requires { HasPlace profile.now object region }
    ensures { result ≡ writes_in profile.now object region }
{
    profile.writes[object][region]
}

/// What is counted of an object that is overlaid in a region.
pub fn overlaid_counts(profile: &Profile, object: usize, region: usize) -> ObjectCounts
    requires { HasPlace profile.now object region }
    ensures is { result ≡ overlaid_counts profile.now object region }
    ensures small { AreSmallCounts result }
{
    ObjectCounts {
        reads: reads_in(profile, object, region),
        writes: writes_in(profile, object, region),
        enters: profile.enters[region],
        leaves: profile.leaves[region],
    }
}

/// How often the current region changed from one region of a pair to its twin.
fn twin_switches(profile: &Profile, pair: usize) -> u64
    requires pair { 1 ≤ pair }
    requires there { HasSwitches profile.now (2 * pair - 1) (2 * pair) }
    requires back { HasSwitches profile.now (2 * pair) (2 * pair - 1) }
    ensures { result ≡ twin_switches profile.now pair }
{
    let there = switches_of(profile, 2 * pair - 1, 2 * pair);
    there + switches_of(profile, 2 * pair, 2 * pair - 1)
}

/// What is counted of an object that is kept for a pair of regions: it is not copied where one gives way to the other.
pub fn kept_counts(profile: &Profile, object: usize, pair: usize) -> ObjectCounts
    requires pair { 1 ≤ pair }
    requires first { HasPlace profile.now object (2 * pair - 1) }
    requires second { HasPlace profile.now object (2 * pair) }
    requires there { HasSwitches profile.now (2 * pair - 1) (2 * pair) }
    requires back { HasSwitches profile.now (2 * pair) (2 * pair - 1) }
    ensures is { result ≡ kept_counts profile.now object pair }
    ensures small { AreSmallCounts result }
{
    let first = overlaid_counts(profile, object, 2 * pair - 1);
    let second = overlaid_counts(profile, object, 2 * pair);
    let inner = twin_switches(profile, pair);
    ObjectCounts {
        reads: first.reads + second.reads,
        writes: first.writes + second.writes,
        enters: (first.enters + second.enters).saturating_sub(inner),
        leaves: (first.leaves + second.leaves).saturating_sub(inner),
    }
}
