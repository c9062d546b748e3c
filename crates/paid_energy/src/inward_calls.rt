ghost use Rattle.std.specs.Prelude.{◌≡◌, ℕ, ◌<◌, true, false, not, ◌&&◌, List, map, length, slice_index_or, Option, Some, None, IfSome, IfOk};
ghost use Rattle.std.specs.List.{AllPairs};
ghost use Rattle.std.specs.List.Sorted.{IsPartitionPoint};
ghost use Rattle.object_graph.specs.declared.parts.Graph.{Graph};
ghost use Rattle.placement_programme.specs.{Bounds.{AscendWithin}, Plain.{plain_var}, Programme.{IsFeasible}, Views.{plain_programme, plain_choice}};
ghost use Rattle.profile_runner.specs.Transition.{Transition};
ghost use Rattle.code_blocks.specs.Numbers.{end_at};
ghost use Rattle.block_splitter.specs.{Forms.{holds_block}, Pieces.{is_entry, range_of, IsPiece, ComesBefore, ArePieces}};
ghost use Rattle.energy_model.specs.{Energy.{piece_in, covering, piece_of}, Scenes.{scene_of, AreOfSameFile}, Together.{taken}};
ghost use Rattle.placement_candidates.specs.{Adding.{kept_name}, Whole.{taken_of as names_taken}};
ghost use Rattle.result_laws.specs.Choices.{IsChoiceFor};
ghost use Rattle.relink_core.specs.{Copies.{comes_before}, Choices.{IsAnalysisOf}};
ghost use Rattle.paid_energy.specs.Inward.{calls, is_within, is_inward, inward_count, counted_inward, IsListed, AreByBlock, ArePiecesOf};

use block_splitter::{BlockRange, Piece};
use board_config::Board;
use code_blocks::{Code, End, has_address};
use energy_model::holds;
use placement_programme::{Choice, Programme, Var, VarName};
use profile_runner::{Edge, Profile};
use region_former::RegionTable;
use relink_core::Analysis;
use rv32im::one_instruction;
use std::alloc::{AllocError, Global};

/// Whether a block ends in a call that names where it leads, or in one that doesn't come back.
fn calls(end: &End) -> bool
    ensures { result ≡ calls end.now }
{
    match end {
        End::Call { .. } | End::Tail { .. } => true,
        End::Fall { .. }
        | End::Branch { .. }
        | End::Jump { .. }
        | End::Indirect { .. }
        | End::Stop => { false }
    }
}

/// Whether a block of a code ends so.
fn block_calls(code: &Code, b: u32) -> bool
    requires { b < length code.now.blocks.items }
    ensures { result ≡ calls (end_at code.now b) }
{
    calls(&code.blocks[b as usize].end)
}

/// The blocks that a variable copies, if it copies some.
fn piece_in(name: VarName) -> Option<BlockRange>
    ensures { result ≡ piece_in name }
{
    match name {
        VarName::StaticCode { first, last } | VarName::OverlayCode { first, last, .. } => {
            Some(BlockRange { first, last })
        }
        VarName::StaticData { .. } | VarName::OverlayData { .. } | VarName::KeptData { .. } => {
            None
        }
    }
}

/// Notes at each of these blocks that they are copied together, as far as the table reaches.
fn fill_blocks(table: &mut [Option<BlockRange>], range: BlockRange)
    ensures len { length table.new ≡ length table.old }
    ensures filled { (b : ℕ) → b < length table.old → slice_index_or table.new b None ≡ covering b (Some range) (slice_index_or table.old b None) }
{
    let end = table.len().min(range.last as usize + 1);
    for b in range.first as usize..end {
        table[b] = Some(range);
    }
}

/// Notes what a variable copies.
fn fill_piece(table: &mut [Option<BlockRange>], name: VarName)
    ensures len { length table.new ≡ length table.old }
    ensures filled { (b : ℕ) → b < length table.old → slice_index_or table.new b None ≡ covering b (piece_in name) (slice_index_or table.old b None) }
{
    match piece_in(name) {
        Some(range) => fill_blocks(table, range),
        None => {}
    }
}

/// The name of variable `number`.
fn name_of(vars: &[Var], number: u32) -> VarName
    requires { number < length vars.now }
    ensures { result ≡ kept_name (map plain_var vars.now) number }
{
    vars[number as usize].name
}

/// Notes what these variables copy. The first that copies a block counts, so it is noted last.
fn fill_side(table: &mut [Option<BlockRange>], vars: &[Var], take: &[u32])
    requires empty { (b : ℕ) → b < length table.old → slice_index_or table.old b None ≡ None }
    requires numbers { AscendWithin 0 (length vars.now) take.now }
    ensures len { length table.new ≡ length table.old }
    ensures filled { (b : ℕ) → b < length table.old → slice_index_or table.new b None ≡ piece_of (map (kept_name (map plain_var vars.now)) take.now) b }
{
    for k in (0..take.len()).rev() {
        fill_piece(table, name_of(vars, take[k]));
    }
}

/// Notes what a choice copies.
fn fill_taken(table: &mut [Option<BlockRange>], p: &Programme, c: &Choice)
    requires empty { (b : ℕ) → b < length table.old → slice_index_or table.old b None ≡ None }
    requires feasible { IsFeasible (plain_programme p.now) (plain_choice c.now) }
    ensures len { length table.new ≡ length table.old }
    ensures filled { (b : ℕ) → b < length table.old → slice_index_or table.new b None ≡ piece_of (names_taken (plain_programme p.now) (plain_choice c.now)).names b }
{
    if !c.on {
        fill_side(table, &p.off.vars, &c.take);
        return;
    }
    match &p.on {
        Some(side) => fill_side(table, &side.vars, &c.take),
        None => {}
    }
}

/// For each of so many blocks those among which it is copied, if it is, by what a choice takes. It fails only where no memory
/// was left.
///
/// The time grows with the number of blocks and with that of the variables that the choice takes: the pieces that a feasible
/// choice takes share no block, so each block is noted once.
fn pieces_by_block(
    alloc: Global,
    p: &Programme,
    c: &Choice,
    blocks: usize,
) -> Result<Vec<Option<BlockRange>>, AllocError>
    requires { IsFeasible (plain_programme p.now) (plain_choice c.now) }
    ensures { IfOk result (λ table. AreByBlock blocks (names_taken (plain_programme p.now) (plain_choice c.now)).names table.items) }
{
    let mut table = vec![in alloc; None; blocks]?;
    fill_taken(&mut table, p, c);
    Ok(table)
}

/// Whether a piece comes before these blocks: by first block, and then by last.
fn comes_before(piece: &Piece, range: &BlockRange) -> bool
    ensures { result ≡ comes_before (range_of piece.now) range.now }
{
    piece.first < range.first || (piece.first == range.first && piece.last < range.last)
}

/// How many pieces come before these blocks, by binary search.
fn pieces_before(pieces: &[Piece], range: &BlockRange) -> usize
    requires { AllPairs (λ p q. ComesBefore (range_of p) (range_of q)) pieces.now }
    ensures { IsPartitionPoint (λ p. comes_before (range_of p) range.now ≡ true) (λ p. comes_before (range_of p) range.now ≡ false) pieces.now result }
{
    pieces.partition_point(|piece| comes_before(piece, range))
}

/// Whether control may come to block `b` of a piece from outside.
fn piece_enters(piece: &Piece, b: u32) -> bool
    requires { (c : Code) × ((g : Graph) × (IsPiece c g piece.now × ((b < length c.blocks.items) × (holds_block b (range_of piece.now) ≡ true)))) }
    ensures { (c : Code) (g : Graph) → IsPiece c g piece.now → b < length c.blocks.items → holds_block b (range_of piece.now) ≡ true → result ≡ is_entry c (range_of piece.now) b }
{
    has_address(&piece.entries, b)
}

/// Whether control may come to block `b` of these blocks, which are those of a piece, from outside.
fn is_entry(pieces: &[Piece], range: &BlockRange, b: u32) -> bool
    requires listed { IsListed pieces.now range.now }
    requires are { (c : Code) × ((g : Graph) × (ArePieces c g pieces.now × ((b < length c.blocks.items) × (holds_block b range.now ≡ true)))) }
    ensures { (c : Code) (g : Graph) → ArePieces c g pieces.now → b < length c.blocks.items → holds_block b range.now ≡ true → result ≡ is_entry c range.now b }
{
    let place = pieces_before(pieces, range);
    piece_enters(&pieces[place], b)
}

/// Whether block `b` is of these blocks too, if there are some, and control comes to it from nowhere outside.
fn is_within(pieces: &[Piece], piece: &Option<BlockRange>, b: u32) -> bool
    requires listed { IfSome piece.now (IsListed pieces.now) }
    requires are { (c : Code) × ((g : Graph) × (ArePieces c g pieces.now × (b < length c.blocks.items))) }
    ensures { (c : Code) (g : Graph) → ArePieces c g pieces.now → b < length c.blocks.items → result ≡ is_within c piece.now b }
{
    match piece {
        Some(range) => holds(range, b) && !is_entry(pieces, range, b),
        None => false,
    }
}

/// Whether a check is made at block `b`.
fn is_checked(regions: &RegionTable, on: bool, b: u32) -> bool
    requires { b < length regions.now.border.items }
    ensures { result ≡ (on && slice_index_or regions.now.border.items b false) }
{
    on && regions.border[b as usize]
}

/// Whether an edge leads to a block of the piece that is taken of the one that it leaves, and no pad stands there.
fn is_unpadded(a: &Analysis, table: &[Option<BlockRange>], on: bool, edge: &Edge) -> bool
    requires analysis { (file : List ℕ) × ((board : Board) × IsAnalysisOf file board a.now) }
    requires table { (names : List VarName) × (AreByBlock (length a.now.code.blocks.items) names table.now × ArePiecesOf a.now.pieces.items names) }
    requires from { edge.now.from < length a.now.code.blocks.items }
    requires to { edge.now.to < length a.now.code.blocks.items }
    ensures { (names : List VarName) → AreByBlock (length a.now.code.blocks.items) names table.now → result ≡ (is_within a.now.code (piece_of names edge.now.from) edge.now.to && not (on && slice_index_or a.now.regions.border.items edge.now.to false)) }
{
    let piece = &table[edge.from as usize];
    is_within(&a.pieces, piece, edge.to) && !is_checked(&a.regions, on, edge.to)
}

/// Whether an edge is an inward call.
fn is_inward(a: &Analysis, table: &[Option<BlockRange>], on: bool, edge: &Edge) -> bool
    requires analysis { (file : List ℕ) × ((board : Board) × IsAnalysisOf file board a.now) }
    requires table { (names : List VarName) × (AreByBlock (length a.now.code.blocks.items) names table.now × ArePiecesOf a.now.pieces.items names) }
    requires from { edge.now.from < length a.now.code.blocks.items }
    requires to { edge.now.to < length a.now.code.blocks.items }
    ensures { (board : Board) (names : List VarName) → AreByBlock (length a.now.code.blocks.items) names table.now → result ≡ is_inward (scene_of a.now.graph a.now.code a.now.regions board) a.now.code (taken on names) edge.now.from edge.now.to }
{
    block_calls(&a.code, edge.from) && is_unpadded(a, table, on, edge)
}

/// How often an edge was taken, if it is an inward call, and else 0.
fn inward_count(a: &Analysis, table: &[Option<BlockRange>], on: bool, edge: &Edge) -> u64
    requires analysis { (file : List ℕ) × ((board : Board) × IsAnalysisOf file board a.now) }
    requires table { (names : List VarName) × (AreByBlock (length a.now.code.blocks.items) names table.now × ArePiecesOf a.now.pieces.items names) }
    requires from { edge.now.from < length a.now.code.blocks.items }
    requires to { edge.now.to < length a.now.code.blocks.items }
    ensures { (board : Board) (names : List VarName) → AreByBlock (length a.now.code.blocks.items) names table.now → result ≡ inward_count (scene_of a.now.graph a.now.code a.now.regions board) a.now.code (taken on names) edge.now }
{
    if is_inward(a, table, on, edge) {
        edge.count
    } else {
        0
    }
}

/// How many calls of the profiled run are inward: those that stay in a piece that a choice takes and find no pad where they
/// lead. Their copies lead home, and there the block runs in main memory, though the energy of the choice counts it in the
/// copy. It fails only where no memory was left.
///
/// The time grows with the number of blocks, with that of the variables that the choice takes, and with the number of edges,
/// for an edge that is a call times the logarithms of the numbers of pieces and of a piece's entries.
pub fn inward(
    alloc: Global,
    profile: &Profile,
    a: &Analysis,
    board: &Board,
    p: &Programme,
    c: &Choice,
) -> Result<u64, AllocError>
    requires same { (transitions : List Transition) × AreOfSameFile a.now.view board.now a.now.graph a.now.code a.now.regions profile.now transitions }
    requires analysis { (file : List ℕ) × IsAnalysisOf file board.now a.now }
    requires choice { IsChoiceFor board.now a.now.graph a.now.code a.now.regions a.now.pieces.items (plain_programme p.now) (plain_choice c.now) }
    ensures { IfOk result (λ calls. calls ≡ counted_inward (scene_of a.now.graph a.now.code a.now.regions board.now) a.now.code (names_taken (plain_programme p.now) (plain_choice c.now)) profile.now) }
{
    one_instruction();
    let table = pieces_by_block(alloc, p, c, a.code.blocks.len())?;
    let mut total = 0;
    for j in 0..profile.edges.len() {
        total += inward_count(a, &table, c.on, &profile.edges[j]);
    }
    Ok(total)
}
