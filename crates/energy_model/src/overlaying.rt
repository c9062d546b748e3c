ghost use Rattle.std.specs.Prelude.{◌≡◌, ◌+◌, ◌-◌, ◌*◌, ◌^◌, ◌<◌, ◌≤◌, false, true, length};
ghost use Rattle.energy_model.specs.{Energy.{arrival_price}, Overlay.{checks_in, checks_price}, Counts.{CountsCode}, OverlayCost.{CountsOverlay, overlay_cost}};

use crate::checks::count_checks;
use crate::first_units::{displaced_run, first_words};
use crate::switches::changes_price;
use board_config::{Board, Prices};
use code_blocks::Code;
use object_graph::Graph;
use profile_runner::Profile;
use region_former::RegionTable;

/// What so many checks cost where control goes on at home: five fetches and a read each.
pub(crate) fn checks_price(checks: u128, prices: &Prices) -> u128
    requires { checks ≤ 1000000000000 }
    ensures sum { result ≡ checks * arrival_price prices.now false true }
    ensures small { result < 2 ^ 80 }
{
    checks * (5 * u128::from(prices.main_fetch) + u128::from(prices.main_read))
}

/// What a run costs more where there is overlay and nothing is taken, without its start stub: checks, displaced first
/// units and changes of the current region, in units of energy.
pub fn overlay_cost(
    code: &Code,
    graph: &Graph,
    profile: &Profile,
    regions: &RegionTable,
    board: &Board,
) -> u128
    requires counts { CountsCode code.now graph.now profile.now }
    requires overlay { CountsOverlay code.now regions.now graph.now profile.now }
    ensures sum { result ≡ overlay_cost code.now graph.now regions.now board.now profile.now }
    ensures small { result < 2 ^ 89 }
{
    let fetch = u128::from(board.prices.main_fetch);
    let checks = checks_price(count_checks(profile, &regions.border), &board.prices);
    let displaced = displaced_run(code, graph, profile, regions) * fetch;
    let changes = changes_price(profile, regions, board);
    let home = first_words(code, profile, regions) * fetch;
    checks + displaced + changes - home
}
