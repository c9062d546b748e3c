ghost use Rattle.std.specs.Prelude.{◌≡◌, ◌+◌, ◌-◌, ◌^◌, ◌≤◌, ◌<◌, ◌&&◌, nat_lt, nat_le, List, map, length, option_map, IfOk};
ghost use Rattle.elf_reader.specs.declared.view.ElfView.{ElfView};
ghost use Rattle.placement_programme.specs.Rows.{fixed_bytes};
ghost use Rattle.profile_runner.specs.Transition.{Transition};
ghost use Rattle.energy_model.specs.{Scenes.{AreOfSameFile}, OverlayCost.{overlay_cost}};
ghost use Rattle.placement_candidates.specs.{FullVars.{plain_full_var}, FullViews.{plain_full_side, plain_full}, Counted.{stub_price}, Stated.{AreSomePieces, IsSmallSide}, Overlaid.{AreOverlaidObjects, IsSmallOn, IsWholeFull}, OverlayCounted.{scene_in, layout_in, on_vars, counted_on_side, counted_on, CanWeigh, CanGain, CanCountOverlay}};

use crate::counting::{full, side_of, stub_price};
use crate::full_sides::{Full, FullSide};
use crate::measured::Measured;
use crate::overlaid_vars::on_vars;
use crate::overlay_parts::{capacities, fixed_bytes};
use crate::variables::FullVar;
use energy_model::{count_blocks, overlay_cost};
use rv32im::one_instruction;
use std::alloc::{AllocError, Global};

/// Whether there is a region, and room for the patch bytes that no variable changes.
fn has_room(m: &Measured<'_>) -> bool
    requires { CanWeigh m.now }
    ensures { result ≡ (nat_lt 0 m.now.regions.now.count && nat_le (fixed_bytes (layout_in m.now)) m.now.board.now.patch.size) }
{
    m.regions.count > 0 && fixed_bytes(m) <= u64::from(m.board.patch.size)
}

/// What the patch range can hold behind the bytes that no variable changes.
fn patch_left(m: &Measured<'_>) -> u64
    requires { CanWeigh m.now }
    ensures { result ≡ m.now.board.now.patch.size - fixed_bytes (layout_in m.now) }
{
    u64::from(m.board.patch.size).saturating_sub(fixed_bytes(m))
}

/// Whether there are more variables than for what is taken throughout.
fn has_overlaid(m: &Measured<'_>, vars: &[FullVar]) -> bool
    requires { length m.now.graph.now.objects.items ≤ 4096 }
    ensures { result ≡ nat_lt (length m.now.graph.now.objects.items + length m.now.pieces.now) (length vars.now) }
{
    let objects = m.graph.objects.len();
    vars.len() > objects && vars.len() - objects > m.pieces.len()
}

/// What the side costs with nothing taken.
fn on_fixed(m: &Measured<'_>) -> u128
    requires { CanGain m.now }
    ensures sum { result ≡ stub_price m.now.board.now + overlay_cost m.now.code.now m.now.graph.now m.now.regions.now m.now.board.now m.now.profile.now }
    ensures small { result < 2 ^ 90 }
{
    let cost = overlay_cost(m.code, m.graph, m.profile, m.regions, m.board);
    stub_price(m.board) + cost
}

/// The variables of all candidates.
fn vars_of(alloc: Global, m: &Measured<'_>, objects: &[u32]) -> Result<Vec<FullVar>, AllocError>
    requires { CanCountOverlay m.now objects.now }
    ensures { IfOk result (λ vars. map plain_full_var vars.items ≡ on_vars m.now objects.now) }
{
    let counts = count_blocks(alloc, m.code, m.graph, m.profile)?;
    match on_vars(alloc, m, &counts, objects) {
        Ok(vars) => Ok(vars),
        Err(error) => Err(error),
    }
}

/// The side with overlay, with these variables.
fn side_with(
    alloc: Global,
    m: &Measured<'_>,
    objects: &[u32],
    vars: Vec<FullVar>,
) -> Result<FullSide, AllocError>
    requires can { CanCountOverlay m.now objects.now }
    requires vars { map plain_full_var vars.items ≡ on_vars m.now objects.now }
    ensures is { IfOk result (λ side. plain_full_side side ≡ counted_on_side m.now objects.now) }
    ensures small { IfOk result (λ side. IsSmallSide (plain_full_side side)) }
{
    let rows = capacities(alloc, m, patch_left(m))?;
    Ok(side_of(on_fixed(m), rows, vars))
}

/// The side with overlay, if there is one.
fn on_side(alloc: Global, m: &Measured<'_>, objects: &[u32]) -> Result<Option<FullSide>, AllocError>
    requires { CanCountOverlay m.now objects.now }
    ensures is { IfOk result (λ on. option_map plain_full_side on ≡ counted_on m.now objects.now) }
    ensures small { IfOk result (λ on. IsSmallOn (option_map plain_full_side on)) }
{
    if !has_room(m) {
        return Ok(None);
    }
    let vars = vars_of(alloc, m, objects)?;
    if !has_overlaid(m, &vars) {
        return Ok(None);
    }
    let side = side_with(alloc, m, objects, vars)?;
    Ok(Some(side))
}

/// The programme of both sides that a run states, with all that may be taken, also what saves nothing.
///
/// The side without overlay is that of `full`, whose conditions are asked of the run. `objects` are those that may be
/// overlaid, by number. There are at most 4,096 objects, as in each file without layout faults. There is a side with
/// overlay where there is a region, something may be overlaid, and the patch range has room for the bytes that no
/// variable changes. The base is below 2^90, and so are the fixed cost and the sum of the gains' absolute values of
/// each side.
///
/// It fails only where no memory was left.
pub fn whole_full(alloc: Global, m: &Measured<'_>, objects: &[u32]) -> Result<Full, AllocError>
    requires run { (view : ElfView) × ((transitions : List Transition) × AreOfSameFile view m.now.board.now m.now.graph.now m.now.code.now m.now.regions.now m.now.profile.now transitions) }
    requires few { length m.now.graph.now.objects.items ≤ 4096 }
    requires pieces { AreSomePieces m.now.code.now m.now.graph.now m.now.pieces.now }
    requires overlaid { AreOverlaidObjects m.now.code.now m.now.graph.now m.now.regions.now objects.now }
    ensures { IfOk result (λ f. (view : ElfView) (transitions : List Transition) → AreOfSameFile view m.now.board.now m.now.graph.now m.now.code.now m.now.regions.now m.now.profile.now transitions → IsWholeFull (scene_in m.now) (layout_in m.now) objects.now m.now.pieces.now transitions (plain_full f)) }
{
    one_instruction();
    let mut whole = full(
        alloc, m.profile, m.graph, m.code, m.regions, m.pieces, m.board,
    )?;
    whole.on = on_side(alloc, m, objects)?;
    Ok(whole)
}
