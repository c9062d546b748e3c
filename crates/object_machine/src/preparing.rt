ghost use Rattle.std.specs.Prelude.{◌≡◌, [], ◌∷◌, ◌++◌, length, IfOk, OnOk};
ghost use Rattle.std.specs.List.{All};
ghost use Rattle.elf_reader.specs.File.{plain_view};
ghost use Rattle.loaded_file.specs.Read.{IsRead};
ghost use Rattle.object_graph.specs.Lookups.{IsSomeGraph};
ghost use Rattle.code_blocks.specs.{Blocks.{IsUnit}, Blocks.{IsCode}};
ghost use Rattle.board_config.specs.declared.board.Board.{Board};
ghost use Rattle.object_machine.specs.Preparing.{IsPairOf, IsPreparedOf, ArePrepared, IsBlockUnits, HasObjects};

use crate::units::{Pair, Prepared};
use code_blocks::{Code, Unit, links, pair_target};
use loaded_file::{LoadedFile, word_of_code};
use object_graph::Graph;
use rv32im::rd;
use std::alloc::{AllocError, Global};

/// The units of blocks one behind the other, and where each block begins.
#[derive(Drop)]
pub(crate) struct BlockUnits {
    pub(crate) units: Vec<Prepared>,
    /// The address of each block.
    pub(crate) starts: Vec<u64>,
    /// The place of its first unit.
    pub(crate) places: Vec<usize>,
}

/// The call of two words that a unit is.
fn pair_of(file: &LoadedFile, unit: &Unit) -> Option<Pair>
    requires read { IsRead file.now.view.now }
    requires unit { IsUnit (plain_view file.now.view.now) unit.now }
    ensures { IsPairOf (plain_view file.now.view.now) unit.now.at result }
{
    if unit.words == 1 {
        return None;
    }
    let second = word_of_code(file, unit.at + 4);
    Some(Pair {
        target: pair_target(unit.at, unit.raw, second),
        register: rd(unit.raw),
        links: links(second),
    })
}

/// A unit with what a step asks of it; `goes_on` says that another of its block follows.
fn prepared(file: &LoadedFile, graph: &Graph, unit: &Unit, goes_on: bool) -> Prepared
    requires read { IsRead file.now.view.now }
    requires graph { IsSomeGraph graph.now }
    requires unit { IsUnit (plain_view file.now.view.now) unit.now }
    ensures { IsPreparedOf (plain_view file.now.view.now) graph.now unit.now goes_on result }
{
    Prepared {
        at: unit.at,
        instr: unit.instr,
        pair: pair_of(file, unit),
        site: graph.site_at(unit.at),
        goes_on,
    }
}

/// The units of a block.
fn prepared_units(
    alloc: Global,
    file: &LoadedFile,
    graph: &Graph,
    units: &[Unit],
) -> Result<Vec<Prepared>, AllocError>
    requires read { IsRead file.now.view.now }
    requires graph { IsSomeGraph graph.now }
    requires units { All (IsUnit (plain_view file.now.view.now)) units.now }
    ensures { IfOk result (λ rs. ArePrepared (plain_view file.now.view.now) graph.now units.now (length units.now) rs.items) }
{
    let mut out = Vec::new(alloc);
    for k in 0..units.len() {
        out.push(prepared(file, graph, &units[k], k + 1 < units.len()))?;
    }
    Ok(out)
}

/// The units of all blocks.
pub(crate) fn lay_blocks(
    alloc: Global,
    file: &LoadedFile,
    graph: &Graph,
    code: &Code,
) -> Result<BlockUnits, AllocError>
    requires read { IsRead file.now.view.now }
    requires graph { IsSomeGraph graph.now }
    requires code { IsCode (plain_view file.now.view.now) code.now }
    ensures { IfOk result (λ block_units. (board : Board) → IsBlockUnits (plain_view file.now.view.now) board graph.now code.now.blocks.items (length code.now.blocks.items) block_units) }
{
    let mut block_units = BlockUnits {
        units: Vec::new(alloc),
        starts: Vec::new(alloc),
        places: Vec::new(alloc),
    };
    for i in 0..code.blocks.len() {
        let block = &code.blocks[i];
        let units = prepared_units(alloc, file, graph, &block.units)?;
        lay(&mut block_units, block.start, &units)?;
    }
    Ok(block_units)
}

/// Puts the units of the block that begins at `start` behind the others.
fn lay(block_units: &mut BlockUnits, start: u32, units: &[Prepared]) -> Result<(), AllocError>
    ensures units { OnOk result (block_units.new.units.items ≡ block_units.old.units.items ++ units.now) }
    ensures starts { OnOk result (block_units.new.starts.items ≡ block_units.old.starts.items ++ start ∷ []) }
    ensures places { OnOk result (block_units.new.places.items ≡ block_units.old.places.items ++ length block_units.old.units.items ∷ []) }
{
    block_units.places.push(block_units.units.len())?;
    block_units.starts.push(u64::from(start))?;
    block_units.units.extend_from_slice(units)?;
    Ok(())
}

/// Addresses as wider numbers.
pub(crate) fn widened(alloc: Global, addresses: &[u32]) -> Result<Vec<u64>, AllocError>
    ensures { IfOk result (λ wide. wide.items ≡ addresses.now) }
{
    let mut wide = Vec::new(alloc);
    for address in addresses {
        wide.push(u64::from(*address))?;
    }
    Ok(wide)
}

/// A graph with the objects of another alone.
pub(crate) fn objects_alone(alloc: Global, graph: &Graph) -> Result<Graph, AllocError>
    ensures { IfOk result (HasObjects graph.now) }
{
    Ok(Graph {
        grain: graph.grain,
        objects: Vec::from_slice(alloc, &graph.objects)?,
        sites: Vec::new(alloc),
        data_words: Vec::new(alloc),
        code: Vec::new(alloc),
    })
}
