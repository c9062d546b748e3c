ghost use Rattle.std.specs.Prelude.{◌≡◌, ℕ, ◌-◌, ◌*◌, ◌^◌, ◌<◌, ◌≤◌, List, map, None, IfOk};
ghost use Rattle.elf_reader.specs.declared.view.ElfView.{ElfView};
ghost use Rattle.placement_programme.specs.Bounds.{IsWithinFullBounds};
ghost use Rattle.profile_runner.specs.Transition.{Transition};
ghost use Rattle.energy_model.specs.{Scenes.{scene_of, layout_of, AreOfSameFile}, Base.{CountsEnergy, IsCounted}};
ghost use Rattle.placement_candidates.specs.{FullVars.{plain_full_var}, FullViews.{plain_full_side, plain_full}, Stated.{AreSomePieces, IsStaticFull}, Counted.{start_size, stub_price, counted_rows, counted_static, counted_side, CanCount}};

use crate::full_sides::{Full, FullSide};
use crate::objects::data_vars;
use crate::pieces::{Tables, push_vars};
use crate::variables::FullVar;
use block_splitter::Piece;
use board_config::Board;
use code_blocks::Code;
use energy_model::{base_of, count_blocks};
use object_graph::Graph;
use profile_runner::Profile;
use region_former::RegionTable;
use rv32im::one_instruction;
use std::alloc::{AllocError, Global};

/// The patch bytes of the control words and of a start stub that copies nothing.
fn start_size(board: &Board) -> u32
    ensures { result ≡ start_size board.now }
{
    if board.fence_i { 88 } else { 84 }
}

/// What a start stub costs that copies nothing: four words that clear registers, a jump, and a fence where the board
/// asks for one.
pub fn stub_price(board: &Board) -> u128
    ensures is { result ≡ stub_price board.now }
    ensures small { result < 2 ^ 70 }
{
    let words = if board.fence_i { 6 } else { 5 };
    words * u128::from(board.prices.main_fetch)
}

/// The capacities of the rows: the scratchpad, the patch range behind the start stub, and a row for each block.
fn off_rows(alloc: Global, board: &Board, blocks: usize) -> Result<Vec<u64>, AllocError>
    requires { start_size board.now ≤ board.now.patch.size }
    ensures { IfOk result (λ rows. rows.items ≡ counted_rows board.now blocks) }
{
    let patch = board.patch.size - start_size(board);
    let ones = vec![in alloc; 1; blocks]?;
    let mut rows = vec![in alloc; u64::from(board.spm.size), u64::from(patch)]?;
    rows.extend_from_slice(&ones)?;
    Ok(rows)
}

/// A side of these parts.
pub fn side_of(fixed: u128, rows: Vec<u64>, vars: Vec<FullVar>) -> FullSide
    requires { IsWithinFullBounds record { fixed = fixed; rows = rows.items; vars = map plain_full_var vars.items } }
    ensures { plain_full_side result ≡ record { fixed = fixed; rows = rows.items; vars = map plain_full_var vars.items } }
{
    FullSide { fixed, rows, vars }
}

/// The variables of objects by home, and then those of pieces.
fn static_vars(
    alloc: Global,
    profile: &Profile,
    graph: &Graph,
    code: &Code,
    pieces: &[Piece],
    board: &Board,
) -> Result<Vec<FullVar>, AllocError>
    requires { CanCount graph.now code.now pieces.now board.now profile.now }
    ensures { IfOk result (λ vars. map plain_full_var vars.items ≡ counted_static board.now profile.now code.now graph.now pieces.now) }
{
    let mut vars = data_vars(alloc, profile, graph, board)?;
    let counts = count_blocks(alloc, code, graph, profile)?;
    let tables = Tables {
        code,
        graph,
        profile,
        counts: &counts,
        board,
    };
    push_vars(&mut vars, &tables, pieces)?;
    Ok(vars)
}

/// The side without overlay.
fn off_side(
    alloc: Global,
    profile: &Profile,
    graph: &Graph,
    code: &Code,
    pieces: &[Piece],
    board: &Board,
) -> Result<FullSide, AllocError>
    requires { CanCount graph.now code.now pieces.now board.now profile.now }
    ensures { IfOk result (λ side. plain_full_side side ≡ counted_side board.now profile.now code.now graph.now pieces.now) }
{
    let rows = off_rows(alloc, board, code.blocks.len())?;
    let vars = static_vars(alloc, profile, graph, code, pieces, board)?;
    Ok(side_of(stub_price(board), rows, vars))
}

/// The energy of the run with all code and data in main memory.
fn base(profile: &Profile, code: &Code, board: &Board) -> u128
    requires counts { CountsEnergy board.now.prices code.now.blocks.items profile.now }
    requires small { (energy : ℕ) → IsCounted board.now.prices code.now.blocks.items profile.now energy → energy < 2 ^ 90 }
    ensures counted { IsCounted board.now.prices code.now.blocks.items profile.now result }
    ensures small { result < 2 ^ 90 }
{
    base_of(&code.blocks, profile, &board.prices)
}

/// The programme that the tables of a profile count.
fn full_of(
    alloc: Global,
    profile: &Profile,
    graph: &Graph,
    code: &Code,
    pieces: &[Piece],
    board: &Board,
) -> Result<Full, AllocError>
    requires { CanCount graph.now code.now pieces.now board.now profile.now }
    ensures base { IfOk result (λ f. IsCounted board.now.prices code.now.blocks.items profile.now f.base) }
    ensures off { IfOk result (λ f. plain_full_side f.off ≡ counted_side board.now profile.now code.now graph.now pieces.now) }
    ensures on { IfOk result (λ f. f.on ≡ None) }
{
    let off = off_side(alloc, profile, graph, code, pieces, board)?;
    Ok(Full {
        base: base(profile, code, board),
        off,
        on: None,
    })
}

/// The programme that a run states for static data and static code, with all objects that may move and these pieces,
/// also those that save nothing.
///
/// The profile must be that of a run of the board's steps, and all parts must be of one file and one board, whose
/// patch range has room for the start stub. The pieces must be of that file's code, each once and in order; there may
/// be none. The variables of objects stand by home, and behind them those of pieces in their order.
///
/// It fails only where no memory was left.
pub fn full(
    alloc: Global,
    profile: &Profile,
    graph: &Graph,
    code: &Code,
    regions: &RegionTable,
    pieces: &[Piece],
    board: &Board,
) -> Result<Full, AllocError>
    requires run { (view : ElfView) × ((transitions : List Transition) × AreOfSameFile view board.now graph.now code.now regions.now profile.now transitions) }
    requires pieces { AreSomePieces code.now graph.now pieces.now }
    ensures { IfOk result (λ f. (view : ElfView) (transitions : List Transition) → AreOfSameFile view board.now graph.now code.now regions.now profile.now transitions → IsStaticFull (scene_of graph.now code.now regions.now board.now) (layout_of graph.now code.now regions.now board.now) pieces.now transitions (plain_full f)) }
{
    one_instruction();
    let _ = regions;
    match full_of(alloc, profile, graph, code, pieces, board) {
        Ok(full) => Ok(full),
        Err(error) => Err(error),
    }
}
