ghost use Rattle.std.specs.Prelude.{◌≡◌, ◌+◌, ◌*◌, ◌<◌, ◌≤◌, ◌++◌, ◌∷◌, [], map, length, true, IfOk, OnOk};
ghost use Rattle.std.specs.List.{All, filter};
ghost use Rattle.cell_values.specs.Objects.{datum_of};
ghost use Rattle.energy_model.specs.Counts.{AreBlockCounts};
ghost use Rattle.placement_programme.specs.Rows.{static_data, static_code, overlay_data, overlay_code, kept_data, pairs_of};
ghost use Rattle.placement_candidates.specs.{FullVars.{plain_full_var}, OverlayCounted.{scene_in, on_var, on_vars, piece_region, CanWeigh, CanWeighPiece, CanGain}, Stated.{part_of}, Tallies.{IsTally, AreTallies}, Overlaid.{static_objects, static_pieces, objects_in, pieces_in, objects_of_pair, overlaid_objects, overlaid_pieces, kept_objects}};

use crate::measured::Measured;
use crate::overlay_gains::{
    kept_data_gain, overlay_code_gain, overlay_data_gain, static_code_gain, static_data_gain,
};
use crate::overlay_parts::{datum_of, part_of, rows_of};
use crate::overlay_rows::{
    kept_data, overlay_code, overlay_data, static_code, static_data, weights_of,
};
use crate::piece_regions::piece_regions;
use crate::tallies::{PieceTally, tallies};
use crate::variables::FullVar;
use block_splitter::Piece;
use energy_model::BlockCounts;
use std::alloc::{AllocError, Global};

/// The variable of object `o` throughout.
fn push_static_data(vars: &mut Vec<FullVar>, m: &Measured<'_>, o: u32) -> Result<(), AllocError>
    requires weigh { CanWeigh m.now }
    requires gain { CanGain m.now }
    requires inside { o < length m.now.graph.now.objects.items }
    ensures { OnOk result (map plain_full_var vars.new.items ≡ map plain_full_var vars.old.items ++ on_var m.now (static_data (datum_of m.now.graph.now o)) ∷ []) }
{
    let rows = rows_of(m);
    let datum = datum_of(m, o);
    let item = static_data(&rows, &datum);
    let weights = weights_of(&rows, &item);
    let var = FullVar {
        name: item.name,
        gain: static_data_gain(m, o),
        weights,
    };
    match vars.push(var) {
        Ok(()) => Ok(()),
        Err(error) => Err(error.into()),
    }
}

/// The variable of a piece throughout.
fn push_static_code(
    vars: &mut Vec<FullVar>,
    m: &Measured<'_>,
    tally: &PieceTally,
    piece: &Piece,
) -> Result<(), AllocError>
    requires weigh { CanWeigh m.now }
    requires piece { CanWeighPiece m.now piece.now }
    requires tally { IsTally m.now piece.now tally.now }
    ensures { OnOk result (map plain_full_var vars.new.items ≡ map plain_full_var vars.old.items ++ on_var m.now (static_code (part_of (scene_in m.now) piece.now)) ∷ []) }
{
    let rows = rows_of(m);
    let part = part_of(m, piece);
    let item = static_code(&rows, &part);
    let weights = weights_of(&rows, &item);
    let var = FullVar {
        name: item.name,
        gain: static_code_gain(m, tally, piece),
        weights,
    };
    match vars.push(var) {
        Ok(()) => Ok(()),
        Err(error) => Err(error.into()),
    }
}

/// The variable of object `o` in region `r`.
fn push_overlay_data(
    vars: &mut Vec<FullVar>,
    m: &Measured<'_>,
    r: u32,
    o: u32,
) -> Result<(), AllocError>
    requires weigh { CanWeigh m.now }
    requires gain { CanGain m.now }
    requires some { 1 ≤ r }
    requires region { r ≤ m.now.regions.now.count }
    requires inside { o < length m.now.graph.now.objects.items }
    ensures { OnOk result (map plain_full_var vars.new.items ≡ map plain_full_var vars.old.items ++ on_var m.now (overlay_data r (datum_of m.now.graph.now o)) ∷ []) }
{
    let rows = rows_of(m);
    let datum = datum_of(m, o);
    let item = overlay_data(&rows, r, &datum);
    let weights = weights_of(&rows, &item);
    let var = FullVar {
        name: item.name,
        gain: overlay_data_gain(m, r, o),
        weights,
    };
    match vars.push(var) {
        Ok(()) => Ok(()),
        Err(error) => Err(error.into()),
    }
}

/// The variable of a piece in region `r`.
fn push_overlay_code(
    vars: &mut Vec<FullVar>,
    m: &Measured<'_>,
    r: u32,
    tally: &PieceTally,
    piece: &Piece,
) -> Result<(), AllocError>
    requires weigh { CanWeigh m.now }
    requires gain { CanGain m.now }
    requires region { r ≤ m.now.regions.now.count }
    requires piece { CanWeighPiece m.now piece.now }
    requires tally { IsTally m.now piece.now tally.now }
    ensures { OnOk result (map plain_full_var vars.new.items ≡ map plain_full_var vars.old.items ++ on_var m.now (overlay_code r (part_of (scene_in m.now) piece.now)) ∷ []) }
{
    let rows = rows_of(m);
    let part = part_of(m, piece);
    let item = overlay_code(&rows, r, &part);
    let weights = weights_of(&rows, &item);
    let var = FullVar {
        name: item.name,
        gain: overlay_code_gain(m, r, tally, piece),
        weights,
    };
    match vars.push(var) {
        Ok(()) => Ok(()),
        Err(error) => Err(error.into()),
    }
}

/// The variable of object `o` for a pair of regions.
fn push_kept_data(
    vars: &mut Vec<FullVar>,
    m: &Measured<'_>,
    pair: u32,
    o: u32,
) -> Result<(), AllocError>
    requires weigh { CanWeigh m.now }
    requires gain { CanGain m.now }
    requires some { 1 ≤ pair }
    requires pair { 2 * pair ≤ m.now.regions.now.count }
    requires inside { o < length m.now.graph.now.objects.items }
    ensures { OnOk result (map plain_full_var vars.new.items ≡ map plain_full_var vars.old.items ++ on_var m.now (kept_data pair (datum_of m.now.graph.now o)) ∷ []) }
{
    let rows = rows_of(m);
    let datum = datum_of(m, o);
    let item = kept_data(&rows, pair, &datum);
    let weights = weights_of(&rows, &item);
    let var = FullVar {
        name: item.name,
        gain: kept_data_gain(m, pair, o),
        weights,
    };
    match vars.push(var) {
        Ok(()) => Ok(()),
        Err(error) => Err(error.into()),
    }
}

/// The variables of all objects throughout, by home.
fn push_static_objects(vars: &mut Vec<FullVar>, m: &Measured<'_>) -> Result<(), AllocError>
    requires weigh { CanWeigh m.now }
    requires gain { CanGain m.now }
    ensures { OnOk result (map plain_full_var vars.new.items ≡ map plain_full_var vars.old.items ++ map (on_var m.now) (static_objects m.now.graph.now (length m.now.graph.now.objects.items))) }
{
    for o in 0..m.graph.objects.len() {
        push_static_data(vars, m, o as u32)?;
    }
    Ok(())
}

/// The variables of all pieces throughout.
fn push_static_pieces(
    vars: &mut Vec<FullVar>,
    m: &Measured<'_>,
    tallies: &[PieceTally],
) -> Result<(), AllocError>
    requires weigh { CanWeigh m.now }
    requires size { length tallies.now ≡ length m.now.pieces.now }
    requires tallies { AreTallies m.now (length m.now.pieces.now) tallies.now }
    requires pieces { All (CanWeighPiece m.now) m.now.pieces.now }
    ensures { OnOk result (map plain_full_var vars.new.items ≡ map plain_full_var vars.old.items ++ map (on_var m.now) (static_pieces (scene_in m.now) m.now.pieces.now)) }
{
    for k in 0..m.pieces.len() {
        let tally = &tallies[k];
        push_static_code(vars, m, tally, &m.pieces[k])?;
    }
    Ok(())
}

/// The variables of objects in region `r`.
fn push_objects_in(
    vars: &mut Vec<FullVar>,
    m: &Measured<'_>,
    objects: &[u32],
    r: u32,
) -> Result<(), AllocError>
    requires weigh { CanWeigh m.now }
    requires gain { CanGain m.now }
    requires some { 1 ≤ r }
    requires region { r ≤ m.now.regions.now.count }
    requires inside { All (λ o. o < length m.now.graph.now.objects.items) objects.now }
    ensures { OnOk result (map plain_full_var vars.new.items ≡ map plain_full_var vars.old.items ++ map (on_var m.now) (objects_in (scene_in m.now) objects.now r)) }
{
    for k in 0..objects.len() {
        let object = objects[k];
        push_overlay_data(vars, m, r, object)?;
    }
    Ok(())
}

/// The variables of objects in all regions.
fn push_overlaid_objects(
    vars: &mut Vec<FullVar>,
    m: &Measured<'_>,
    objects: &[u32],
) -> Result<(), AllocError>
    requires weigh { CanWeigh m.now }
    requires gain { CanGain m.now }
    requires inside { All (λ o. o < length m.now.graph.now.objects.items) objects.now }
    ensures { OnOk result (map plain_full_var vars.new.items ≡ map plain_full_var vars.old.items ++ map (on_var m.now) (overlaid_objects (scene_in m.now) objects.now m.now.regions.now.count)) }
{
    for before in 0..m.regions.count {
        push_objects_in(vars, m, objects, before + 1)?;
    }
    Ok(())
}

/// The variables of objects for a pair of regions.
fn push_objects_of_pair(
    vars: &mut Vec<FullVar>,
    m: &Measured<'_>,
    objects: &[u32],
    pair: u32,
) -> Result<(), AllocError>
    requires weigh { CanWeigh m.now }
    requires gain { CanGain m.now }
    requires some { 1 ≤ pair }
    requires pair { 2 * pair ≤ m.now.regions.now.count }
    requires inside { All (λ o. o < length m.now.graph.now.objects.items) objects.now }
    ensures { OnOk result (map plain_full_var vars.new.items ≡ map plain_full_var vars.old.items ++ map (on_var m.now) (objects_of_pair (scene_in m.now) objects.now pair)) }
{
    for k in 0..objects.len() {
        let object = objects[k];
        push_kept_data(vars, m, pair, object)?;
    }
    Ok(())
}

/// How many pairs of regions there are.
fn pairs_of(m: &Measured<'_>) -> u32
    ensures pairs { result ≡ pairs_of m.now.board.now.twins m.now.regions.now.count }
    ensures within { 2 * result ≤ m.now.regions.now.count }
{
    if m.board.twins {
        m.regions.count / 2
    } else {
        0
    }
}

/// The variables of objects for all pairs.
fn push_kept_objects(
    vars: &mut Vec<FullVar>,
    m: &Measured<'_>,
    objects: &[u32],
) -> Result<(), AllocError>
    requires weigh { CanWeigh m.now }
    requires gain { CanGain m.now }
    requires inside { All (λ o. o < length m.now.graph.now.objects.items) objects.now }
    ensures { OnOk result (map plain_full_var vars.new.items ≡ map plain_full_var vars.old.items ++ map (on_var m.now) (kept_objects (scene_in m.now) objects.now (pairs_of m.now.board.now.twins m.now.regions.now.count))) }
{
    let pairs = pairs_of(m);
    for before in 0..pairs {
        push_objects_of_pair(vars, m, objects, before + 1)?;
    }
    Ok(())
}

/// The variables of pieces in region `r`, where this is the region of each piece.
fn push_pieces_in(
    vars: &mut Vec<FullVar>,
    m: &Measured<'_>,
    tallies: &[PieceTally],
    table: &[u32],
    r: u32,
) -> Result<(), AllocError>
    requires weigh { CanWeigh m.now }
    requires gain { CanGain m.now }
    requires size { length tallies.now ≡ length m.now.pieces.now }
    requires tallies { AreTallies m.now (length m.now.pieces.now) tallies.now }
    requires pieces { All (CanWeighPiece m.now) m.now.pieces.now }
    requires some { 1 ≤ r }
    requires region { r ≤ m.now.regions.now.count }
    requires table { table.now ≡ map (piece_region m.now.regions.now.of_block.items) m.now.pieces.now }
    ensures { OnOk result (map plain_full_var vars.new.items ≡ map plain_full_var vars.old.items ++ map (on_var m.now) (pieces_in (scene_in m.now) m.now.pieces.now r)) }
{
    for k in 0..m.pieces.len() {
        if table[k] == r {
            let tally = &tallies[k];
            push_overlay_code(vars, m, r, tally, &m.pieces[k])?;
        }
    }
    Ok(())
}

/// The variables of pieces in all regions.
fn push_pieces_by(
    vars: &mut Vec<FullVar>,
    m: &Measured<'_>,
    tallies: &[PieceTally],
    table: &[u32],
) -> Result<(), AllocError>
    requires weigh { CanWeigh m.now }
    requires gain { CanGain m.now }
    requires size { length tallies.now ≡ length m.now.pieces.now }
    requires tallies { AreTallies m.now (length m.now.pieces.now) tallies.now }
    requires pieces { All (CanWeighPiece m.now) m.now.pieces.now }
    requires table { table.now ≡ map (piece_region m.now.regions.now.of_block.items) m.now.pieces.now }
    ensures { OnOk result (map plain_full_var vars.new.items ≡ map plain_full_var vars.old.items ++ map (on_var m.now) (overlaid_pieces (scene_in m.now) m.now.pieces.now m.now.regions.now.count)) }
{
    for before in 0..m.regions.count {
        push_pieces_in(vars, m, tallies, table, before + 1)?;
    }
    Ok(())
}

/// The variables of pieces in their regions.
fn push_overlaid_pieces(
    alloc: Global,
    vars: &mut Vec<FullVar>,
    m: &Measured<'_>,
    tallies: &[PieceTally],
) -> Result<(), AllocError>
    requires weigh { CanWeigh m.now }
    requires gain { CanGain m.now }
    requires size { length tallies.now ≡ length m.now.pieces.now }
    requires tallies { AreTallies m.now (length m.now.pieces.now) tallies.now }
    requires pieces { All (CanWeighPiece m.now) m.now.pieces.now }
    ensures { OnOk result (map plain_full_var vars.new.items ≡ map plain_full_var vars.old.items ++ map (on_var m.now) (overlaid_pieces (scene_in m.now) m.now.pieces.now m.now.regions.now.count)) }
{
    let table = piece_regions(alloc, m)?;
    match push_pieces_by(vars, m, tallies, &table) {
        Ok(()) => Ok(()),
        Err(error) => Err(error),
    }
}

/// The variables of all candidates with overlay, in their order.
pub(crate) fn on_vars(
    alloc: Global,
    m: &Measured<'_>,
    counts: &BlockCounts,
    objects: &[u32],
) -> Result<Vec<FullVar>, AllocError>
    requires weigh { CanWeigh m.now }
    requires gain { CanGain m.now }
    requires counts { AreBlockCounts m.now.code.now m.now.graph.now m.now.profile.now counts.now }
    requires pieces { All (CanWeighPiece m.now) m.now.pieces.now }
    requires inside { All (λ o. o < length m.now.graph.now.objects.items) objects.now }
    ensures { IfOk result (λ vars. map plain_full_var vars.items ≡ on_vars m.now objects.now) }
{
    let tallies = tallies(alloc, m, counts)?;
    let mut vars = Vec::new(alloc);
    push_static_objects(&mut vars, m)?;
    push_static_pieces(&mut vars, m, &tallies)?;
    push_overlaid_objects(&mut vars, m, objects)?;
    push_overlaid_pieces(alloc, &mut vars, m, &tallies)?;
    push_kept_objects(&mut vars, m, objects)?;
    Ok(vars)
}
