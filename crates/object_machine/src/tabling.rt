ghost use Rattle.std.specs.Prelude.{◌≡◌, IfOk};
ghost use Rattle.elf_reader.specs.File.{plain_view};
ghost use Rattle.board_config.specs.Board.{IsLawful};
ghost use Rattle.loaded_file.specs.Read.{IsRead};
ghost use Rattle.object_graph.specs.Graphs.{IsGraph};
ghost use Rattle.code_blocks.specs.Blocks.{IsCode};
ghost use Rattle.cell_values.specs.Objects.{IsGrain};
ghost use Rattle.object_machine.specs.{Program.{program_of}, Machine.{Agrees}, Preparing.{HasObjects}};

use crate::landings::{block_landings, first_start, reached_landings};
use crate::naming::named_units;
use crate::numbering::block_numbers;
use crate::preparing::{lay_blocks, objects_alone, widened};
use crate::tables::Tables;
use crate::widest::widest_below;
use board_config::Board;
use code_blocks::Code;
use elf_reader::ElfView;
use loaded_file::LoadedFile;
use object_graph::{Graph, fixed_ranges};
use std::alloc::{AllocError, Global};

/// The tables of a program on a board.
pub(crate) fn tables_of(
    alloc: Global,
    view: &ElfView,
    board: &Board,
    graph: &Graph,
    code: &Code,
) -> Result<Tables, AllocError>
    requires read { IsRead view.now }
    requires lawful { IsLawful board.now }
    requires graph { IsGraph (plain_view view.now) board.now graph.now }
    requires grain { IsGrain graph.now.grain }
    requires code { IsCode (plain_view view.now) code.now }
    ensures program { IfOk result (Agrees (program_of (plain_view view.now) board.now graph.now)) }
    ensures graph { IfOk result (λ t. HasObjects graph.now t.graph) }
{
    let file = LoadedFile::of(alloc, view)?;
    let objects = objects_alone(alloc, graph)?;
    let block_units = lay_blocks(alloc, &file, graph, code)?;
    let reached = widened(alloc, &code.indirect)?;
    let fixed = fixed_ranges(alloc, view, board, graph)?;
    let numbers = block_numbers(alloc, code, &block_units.units)?;
    let landings = block_landings(alloc, &block_units)?;
    let ops = named_units(
        alloc,
        &block_units.units,
        &landings,
        first_start(&block_units.starts),
    )?;
    let widest = widest_below(&fixed, u32::MAX);
    let second = widest_below(&fixed, widest.size);
    let reached_landings = reached_landings(alloc, &block_units, &landings, &reached)?;
    Ok(Tables {
        graph: objects,
        first: first_start(&block_units.starts),
        widest,
        second,
        landings,
        reached_landings,
        units: block_units.units,
        ops,
        starts: block_units.starts,
        places: block_units.places,
        numbers,
        reached,
        fixed,
    })
}
