ghost use Rattle.std.specs.Prelude.{◌≡◌, ◌*◌, ◌/◌, ◌^◌, ◌<◌, ◌≤◌, length, slice_index_or};
ghost use Rattle.block_splitter.specs.declared.piece.Piece.{Piece};
ghost use Rattle.energy_model.specs.Energy.{into_price};
ghost use Rattle.cell_values.specs.Objects.{object_of, datum_of};
ghost use Rattle.placement_programme.specs.Rows.{static_data, static_code, overlay_data, overlay_code, kept_data};
ghost use Rattle.placement_candidates.specs.{Stated.{part_of}, OverlayCounted.{scene_in, code_gain_in, gain_in, CanGain}, Tallies.{IsTally}};

use crate::measured::Measured;
use crate::objects::{data_gain, object_at};
use crate::tallies::PieceTally;
use block_splitter::Piece;
use energy_model::{into_price, kept_counts, object_gain, overlaid_counts, piece_gain};

/// What object `o` saves throughout.
pub(crate) fn static_data_gain(m: &Measured<'_>, o: u32) -> i128
    requires gain { CanGain m.now }
    requires inside { o < length m.now.graph.now.objects.items }
    ensures { result ≡ gain_in m.now (static_data (datum_of m.now.graph.now o)) }
{
    data_gain(m.profile, m.graph, o as usize, &m.board.prices)
}

/// What object `o` saves in region `r`.
pub(crate) fn overlay_data_gain(m: &Measured<'_>, r: u32, o: u32) -> i128
    requires gain { CanGain m.now }
    requires region { r ≤ m.now.regions.now.count }
    requires inside { o < length m.now.graph.now.objects.items }
    ensures { result ≡ gain_in m.now (overlay_data r (datum_of m.now.graph.now o)) }
{
    let object = object_at(m.graph, o as usize);
    let counts = overlaid_counts(m.profile, o as usize, r as usize);
    object_gain(&object, &counts, &m.board.prices)
}

/// What object `o` saves for a pair of regions.
pub(crate) fn kept_data_gain(m: &Measured<'_>, pair: u32, o: u32) -> i128
    requires gain { CanGain m.now }
    requires some { 1 ≤ pair }
    requires pair { 2 * pair ≤ m.now.regions.now.count }
    requires inside { o < length m.now.graph.now.objects.items }
    ensures { result ≡ gain_in m.now (kept_data pair (datum_of m.now.graph.now o)) }
{
    let object = object_at(m.graph, o as usize);
    let counts = kept_counts(m.profile, o as usize, pair as usize);
    object_gain(&object, &counts, &m.board.prices)
}

/// What a piece saves of which this is counted and whose copies cost so much.
fn code_gain(m: &Measured<'_>, tally: &PieceTally, copies: u128) -> i128
    requires tally { (p : Piece) × IsTally m.now p tally.now }
    requires copies { copies < 2 ^ 120 }
    ensures { (p : Piece) → IsTally m.now p tally.now → result ≡ code_gain_in m.now p.first p.last copies }
{
    piece_gain(&tally.run, &tally.entering, copies, &m.board.prices)
}

/// What a piece saves throughout, of which this is counted.
pub(crate) fn static_code_gain(m: &Measured<'_>, tally: &PieceTally, piece: &Piece) -> i128
    requires { IsTally m.now piece.now tally.now }
    ensures { result ≡ gain_in m.now (static_code (part_of (scene_in m.now) piece.now)) }
{
    code_gain(m, tally, into_price(piece.bytes / 4, &m.board.prices))
}

/// What the copies of a piece cost that is copied whenever region `r` becomes current.
fn copies_price(m: &Measured<'_>, r: u32, piece: &Piece) -> u128
    requires gain { CanGain m.now }
    requires region { r ≤ m.now.regions.now.count }
    ensures is { result ≡ slice_index_or m.now.profile.now.enters.items r 0 * into_price m.now.board.now.prices (piece.now.bytes / 4) }
    ensures small { result < 2 ^ 120 }
{
    let enters = u128::from(m.profile.enters[r as usize]);
    enters * into_price(piece.bytes / 4, &m.board.prices)
}

/// What a piece saves in region `r`, of which this is counted.
pub(crate) fn overlay_code_gain(m: &Measured<'_>, r: u32, tally: &PieceTally, piece: &Piece) -> i128
    requires gain { CanGain m.now }
    requires region { r ≤ m.now.regions.now.count }
    requires tally { IsTally m.now piece.now tally.now }
    ensures { result ≡ gain_in m.now (overlay_code r (part_of (scene_in m.now) piece.now)) }
{
    code_gain(m, tally, copies_price(m, r, piece))
}
