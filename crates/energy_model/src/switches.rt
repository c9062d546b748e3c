ghost use Rattle.std.specs.Prelude.{◌≡◌, ℕ, suc, ◌+◌, ◌-◌, ◌*◌, ◌^◌, ◌<◌, ◌≤◌, []};
ghost use Rattle.object_graph.specs.declared.parts.Graph.{Graph};
ghost use Rattle.code_blocks.specs.declared.parts.Code.{Code};
ghost use Rattle.profile_runner.specs.Counts.{plain_rows, entry};
ghost use Rattle.energy_model.specs.{Energy.{test_words, twin_of, has_twin, twin_words, twins_words, fence_words, switch_words, switch_price}, Scenes.{scene_of}, Overlay.{changes_from, changes_price}, OverlayCost.{IsSmallTable}, Gains.{HasSwitches}};

use board_config::{Board, Prices};
use profile_runner::Profile;
use region_former::RegionTable;

/// The words of the routine's tests for a region that ends or begins: three for each region, but two for its own.
fn test_words(regions: u32, region: u32) -> u32
    requires { regions ≤ 8 }
    ensures sum { result ≡ test_words regions region }
    ensures small { result ≤ 24 }
{
    match region {
        0 => 3 * regions,
        _ => (3 * regions).saturating_sub(1),
    }
}

/// The other region of a pair of twins: 1 and 2, 3 and 4, and so on.
fn twin_of(region: u32) -> u32
    requires { region ≤ 8 }
    ensures { result ≡ twin_of region }
{
    match region {
        0 => 0,
        _ if region % 2 == 1 => region + 1,
        _ => region - 1,
    }
}

/// Whether a region has a twin: where the number of regions is odd, the last has none.
fn has_twin(regions: u32, region: u32) -> bool
    requires { region ≤ 8 }
    ensures { result ≡ has_twin regions region }
{
    region > 0 && twin_of(region) <= regions
}

/// The words of a region's test for its twin: three where that is the other region, and else two.
fn twin_words(regions: u32, region: u32, other: u32) -> u32
    requires { region ≤ 8 }
    ensures sum { result ≡ twin_words regions region other }
    ensures small { result ≤ 3 }
{
    if !has_twin(regions, region) {
        0
    } else if twin_of(region) == other {
        3
    } else {
        2
    }
}

/// The words of both tests for a twin, where the board has twins.
fn twins_words(regions: &RegionTable, board: &Board, from: u32, to: u32) -> u32
    requires from { from ≤ 8 }
    requires to { to ≤ 8 }
    ensures sum { (g : Graph) (c : Code) → result ≡ twins_words (scene_of g c regions.now board.now) from to }
    ensures small { result ≤ 6 }
{
    if board.twins {
        twin_words(regions.count, from, to) + twin_words(regions.count, to, from)
    } else {
        0
    }
}

/// The words of a fence, where the board asks for one.
fn fence_words(board: &Board) -> u32
    ensures sum { result ≡ fence_words board.now }
    ensures small { result ≤ 1 }
{
    if board.fence_i { 1 } else { 0 }
}

/// The words that run where one region gives way to another.
fn switch_words(regions: &RegionTable, board: &Board, from: u32, to: u32) -> u32
    requires from { from ≤ 8 }
    requires to { to ≤ 8 }
    ensures sum { (g : Graph) (c : Code) → result ≡ switch_words (scene_of g c regions.now board.now) from to }
    ensures small { result ≤ 100 }
{
    let tests = test_words(regions.count, from) + test_words(regions.count, to);
    let twins = twins_words(regions, board, from, to);
    20 + tests + twins + 3 + fence_words(board)
}

/// What so many words of the switch routine cost: it stores eight registers, and loads them.
fn routine_price(words: u32, prices: &Prices) -> u64
    requires { words ≤ 100 }
    ensures sum { result ≡ words * prices.now.main_fetch + 8 * prices.now.main_read + 8 * prices.now.main_write }
    ensures small { result < 2 ^ 40 }
{
    let fetches = u64::from(words) * u64::from(prices.main_fetch);
    fetches + 8 * u64::from(prices.main_read) + 8 * u64::from(prices.main_write)
}

/// What it costs that one region gives way to another, where nothing is copied.
fn switch_price(regions: &RegionTable, board: &Board, from: u32, to: u32) -> u64
    requires from { from ≤ 8 }
    requires to { to ≤ 8 }
    ensures sum { (g : Graph) (c : Code) → result ≡ switch_price (scene_of g c regions.now board.now) [] from to }
    ensures small { result < 2 ^ 40 }
{
    routine_price(switch_words(regions, board, from, to), &board.prices)
}

/// How often one region gave way to another.
pub(crate) fn switches_of(profile: &Profile, from: usize, to: usize) -> u64
    requires { HasSwitches profile.now from to }
    ensures { result ≡ entry (plain_rows profile.now.switches.items) from to }
{
    profile.switches[from][to]
}

/// What the changes from one region to another cost.
fn change_price(profile: &Profile, regions: &RegionTable, board: &Board, from: u32, to: u32) -> u128
    requires table { IsSmallTable (plain_rows profile.now.switches.items) (suc regions.now.count) (suc regions.now.count) }
    requires from { from ≤ regions.now.count }
    requires to { to ≤ regions.now.count }
    ensures sum { (g : Graph) (c : Code) → result ≡ entry (plain_rows profile.now.switches.items) from to * switch_price (scene_of g c regions.now board.now) [] from to }
    ensures small { result ≤ 2 ^ 70 }
{
    let count = switches_of(profile, from as usize, to as usize);
    u128::from(count) * u128::from(switch_price(regions, board, from, to))
}

/// What the changes from a region cost.
fn changes_from(profile: &Profile, regions: &RegionTable, board: &Board, from: u32) -> u128
    requires table { IsSmallTable (plain_rows profile.now.switches.items) (suc regions.now.count) (suc regions.now.count) }
    requires from { from ≤ regions.now.count }
    ensures sum { (g : Graph) (c : Code) → result ≡ changes_from (scene_of g c regions.now board.now) profile.now from (suc regions.now.count) }
    ensures small { result ≤ 9 * 2 ^ 70 }
{
    let mut total = 0;
    for to in 0..regions.count + 1 {
        total += change_price(profile, regions, board, from, to);
    }
    total
}

/// What all changes of the current region cost in a run, without what they copy.
pub(crate) fn changes_price(profile: &Profile, regions: &RegionTable, board: &Board) -> u128
    requires { IsSmallTable (plain_rows profile.now.switches.items) (suc regions.now.count) (suc regions.now.count) }
    ensures sum { (g : Graph) (c : Code) → result ≡ changes_price (scene_of g c regions.now board.now) profile.now }
    ensures small { result ≤ 81 * 2 ^ 70 }
{
    let mut total = 0;
    for from in 0..regions.count + 1 {
        total += changes_from(profile, regions, board, from);
    }
    total
}
