ghost use Rattle.std.specs.Prelude.{◌≡◌, ◌+◌, ◌-◌, ◌*◌, ◌<◌, ◌≤◌, not, length};
ghost use Rattle.object_graph.specs.Lookups.{IsSomeGraph};
ghost use Rattle.profile_runner.specs.Transition.{is_going};
ghost use Rattle.block_splitter.specs.Forms.{body_of, body_at, unit_in, is_site, kind_of, displaced_words};
ghost use Rattle.energy_model.specs.{Overlay.{ends_first, first_runs, displaced_run, first_words}, Counts.{CountsCode}, Entering.{displaced_of, first_of, if_border}, OverlayCost.{CountsOverlay}};

use block_splitter::{UnitKind, kind_of};
use code_blocks::{Block, Code};
use object_graph::Graph;
use object_machine::Outcome;
use profile_runner::Profile;
use region_former::RegionTable;

/// The words that run of a unit that is displaced from the start of its block.
fn displaced_words(kind: &UnitKind) -> u32
    ensures sum { result ≡ displaced_words kind.now }
    ensures small { result ≤ 3 }
{
    match kind {
        UnitKind::Upper { .. } | UnitKind::Call { .. } | UnitKind::Linking { .. } => 3,
        UnitKind::Plain | UnitKind::Branch { .. } => 2,
        UnitKind::Jump { .. } | UnitKind::Tail { .. } | UnitKind::Indirect | UnitKind::Halt => 1,
    }
}

/// Whether the run ended with a unit.
fn is_over(outcome: &Outcome) -> bool
    ensures { result ≡ not (is_going outcome.now) }
{
    match outcome {
        Outcome::GoesOn => false,
        Outcome::Exited(_) | Outcome::Trapped { .. } | Outcome::AddressFault { .. } => true,
    }
}

/// Whether the run ended with the first unit of block `b`.
fn ends_first(profile: &Profile, b: usize) -> bool
    ensures { result ≡ ends_first profile.now b }
{
    let (block, units) = profile.last;
    b == block as usize && units == 1 && is_over(&profile.outcome)
}

/// How often the first unit of block `b` ran and the machine went on.
fn first_runs(profile: &Profile, b: usize) -> u64
    requires { b < length profile.now.arrivals.items }
    ensures { result ≡ first_runs profile.now b }
{
    let begun = profile.arrivals[b];
    if ends_first(profile, b) {
        begun.saturating_sub(1)
    } else {
        begun
    }
}

/// The words of a block's first unit where it is displaced.
fn first_displaced(graph: &Graph, block: &Block) -> u32
    requires graph { IsSomeGraph graph.now }
    requires some { 0 < length block.now.units.items }
    ensures sum { result ≡ displaced_words (kind_of (is_site graph.now) (body_of block.now) 0) }
    ensures small { result ≤ 3 }
{
    displaced_words(&kind_of(graph, block, 0))
}

/// The words of the first unit of block `b` where it is displaced.
fn displaced_at(code: &Code, graph: &Graph, b: usize) -> u32
    requires graph { IsSomeGraph graph.now }
    requires inside { b < length code.now.blocks.items }
    requires some { 0 < length (body_at code.now.blocks.items b).units }
    ensures sum { result ≡ displaced_words (kind_of (is_site graph.now) (body_at code.now.blocks.items b) 0) }
    ensures small { result ≤ 3 }
{
    first_displaced(graph, &code.blocks[b])
}

/// The words of the first unit of block `b` at home.
fn home_at(code: &Code, b: usize) -> u32
    requires inside { b < length code.now.blocks.items }
    requires some { 0 < length (body_at code.now.blocks.items b).units }
    ensures { result ≡ (unit_in (body_at code.now.blocks.items b) 0).words }
{
    code.blocks[b].units[0].words
}

/// The displaced words of the first unit of block `b`, as often as they ran, where control enters a region there.
pub(crate) fn displaced_of(
    code: &Code,
    graph: &Graph,
    profile: &Profile,
    regions: &RegionTable,
    b: usize,
) -> u128
    requires counts { CountsCode code.now graph.now profile.now }
    requires overlay { CountsOverlay code.now regions.now graph.now profile.now }
    requires inside { b < length code.now.blocks.items }
    ensures { result ≡ if_border regions.now.border.items (displaced_of code.now graph.now profile.now) b }
{
    if regions.border[b] {
        u128::from(first_runs(profile, b)) * u128::from(displaced_at(code, graph, b))
    } else {
        0
    }
}

/// The words of the first unit of block `b` at home, as often as they ran, where control enters a region there.
pub(crate) fn first_of(code: &Code, profile: &Profile, regions: &RegionTable, b: usize) -> u128
    requires counts { (g : Graph) × CountsCode code.now g profile.now }
    requires borders { length regions.now.border.items ≡ length code.now.blocks.items }
    requires inside { b < length code.now.blocks.items }
    ensures { result ≡ if_border regions.now.border.items (first_of code.now profile.now) b }
{
    if regions.border[b] {
        u128::from(first_runs(profile, b)) * u128::from(home_at(code, b))
    } else {
        0
    }
}

/// The words of first units where control enters regions, as often as they ran: displaced.
pub(crate) fn displaced_run(
    code: &Code,
    graph: &Graph,
    profile: &Profile,
    regions: &RegionTable,
) -> u128
    requires counts { CountsCode code.now graph.now profile.now }
    requires overlay { CountsOverlay code.now regions.now graph.now profile.now }
    ensures sum { result ≡ displaced_run code.now graph.now profile.now regions.now.border.items }
    ensures small { result ≤ 3000000000 }
{
    let mut total = 0;
    for b in 0..code.blocks.len() {
        total += displaced_of(code, graph, profile, regions, b);
    }
    total
}

/// And at home.
pub(crate) fn first_words(code: &Code, profile: &Profile, regions: &RegionTable) -> u128
    requires counts { (g : Graph) × (CountsCode code.now g profile.now × CountsOverlay code.now regions.now g profile.now) }
    ensures sum { result ≡ first_words code.now profile.now regions.now.border.items }
{
    let mut total = 0;
    for b in 0..code.blocks.len() {
        total += first_of(code, profile, regions, b);
    }
    total
}
