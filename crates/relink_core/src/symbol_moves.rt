//! The symbols of objects that are moved.
ghost use Rattle.std.specs.Prelude.{◌≡◌, ◌<◌, ◌≤◌, length, None, OnOk, IfOk, ◌++◌, if◌then◌else◌};
ghost use Rattle.elf_reader.specs.File.{plain_view};
ghost use Rattle.loaded_file.specs.{Records.{symbol_at}, Ranges.{has_range}};
ghost use Rattle.relink_core.specs.{Making.{move_to, moves_below, HasStarts, AreOfGraph}, MovedRanges.{place_of_range}};

use crate::moved_ranges::{MovedRanges, moved_place, moved_ranges};
use elf_reader::ElfView;
use elf_writer::SymbolMove;
use loaded_file::{LoadedFile, has_range};
use object_graph::Graph;
use relocator::Places;
use std::alloc::{AllocError, Global};

/// The new value of symbol `k`, if it is one of an object that is moved.
fn symbol_value(file: &LoadedFile, ranges: &MovedRanges, k: usize) -> Option<u32>
    requires { k < length file.now.view.now.symbols.items }
    ensures { result ≡ (if has_range (plain_view file.now.view.now) (symbol_at (plain_view file.now.view.now) k) then place_of_range ranges.now (symbol_at (plain_view file.now.view.now) k).value (symbol_at (plain_view file.now.view.now) k).size else None) }
{
    let symbol = &file.view.symbols[k];
    if !has_range(file, symbol) {
        return None;
    }
    moved_place(ranges, symbol.value, symbol.size)
}

/// Appends the move of symbol `k`, if it has a new value.
fn push_move(moves: &mut Vec<SymbolMove>, symbol: u32, value: Option<u32>) -> Result<(), AllocError>
    ensures { OnOk result (moves.new.items ≡ moves.old.items ++ move_to symbol value) }
{
    if let Some(value) = value {
        moves.push(SymbolMove { symbol, value })?;
    }
    Ok(())
}

/// The moves of the symbols of some objects to their places, in the order of the symbols. It fails only where no
/// memory was left.
///
/// The time grows with n log n, where n is the number of symbols and objects.
pub(crate) fn symbol_moves(
    alloc: Global,
    view: &ElfView,
    graph: &Graph,
    places: &Places,
    objects: &[u32],
) -> Result<Vec<SymbolMove>, AllocError>
    requires listed { AreOfGraph graph.now objects.now }
    requires starts { HasStarts graph.now places.now }
    requires few { length view.now.symbols.items ≤ 65536 }
    ensures { IfOk result (λ moves. moves.items ≡ moves_below (plain_view view.now) graph.now places.now objects.now (length view.now.symbols.items)) }
{
    let file = LoadedFile::of(alloc, view)?;
    let ranges = moved_ranges(alloc, graph, places, objects)?;
    let mut moves = Vec::new(alloc);
    for k in 0..view.symbols.len() {
        let value = symbol_value(&file, &ranges, k);
        push_move(&mut moves, k as u32, value)?;
    }
    Ok(moves)
}
