ghost use Rattle.std.specs.Prelude.{◌≡◌, ℕ, IsSomeAnd, IfOk};
ghost use Rattle.elf_reader.specs.File.{PlainView};
ghost use Rattle.board_config.specs.Board.{IsLawful};
ghost use Rattle.object_graph.specs.Graphs.{IsGraph};
ghost use Rattle.placement_programme.specs.Views.{plain_programme, plain_choice};
ghost use Rattle.relocator.specs.{Placing.{chosen_slots, ArePlaces}, Laws.{CanLayOut}};

use crate::items::items;
use crate::slots::{code_slots, slots};
use crate::table::table;
use board_config::Board;
use object_graph::Graph;
use placement_programme::{Choice, Programme};
use std::alloc::{AllocError, Global};

/// Where everything stands that may stand in the scratchpad.
#[derive(Drop)]
pub struct Places {
    /// For each object its place in each region, region 0 being where no region is entered yet.
    pub of: Vec<Vec<u32>>,
    /// The first address of the slot of each piece of code that is taken, in the order of the choice.
    pub code: Vec<u32>,
}

/// The places of all objects in regions 0 to `regions`, and the slots of code, for a choice.
///
/// Static variables are put from the scratchpad's base on, in their order, each taking what it weighs there; then for
/// each pair of regions those that are kept for it, behind the static ones; then for each region those that are
/// overlaid in it, behind those of its pair. An object stands in its slot as many bytes behind a multiple of the grain
/// as at home, one that is kept for a pair in one place in both its regions, and one without a slot is at home. It
/// fails only where no memory was left.
///
/// The time grows with the number of taken variables and objects times the number of regions.
pub fn layout(
    alloc: Global,
    p: &Programme,
    c: &Choice,
    graph: &Graph,
    regions: u32,
    board: &Board,
) -> Result<Places, AllocError>
    requires lawful { IsLawful board.now }
    requires graph { (v : PlainView) × IsGraph v board.now graph.now }
    requires choice { CanLayOut graph.now regions board.now (plain_programme p.now) (plain_choice c.now) }
    ensures { IfOk result (ArePlaces graph.now regions (chosen_slots board.now (plain_programme p.now) (plain_choice c.now))) }
{
    let items = items(alloc, p, c)?;
    let slots = slots(alloc, &items, board.spm.base, regions)?;
    let of = table(alloc, graph, regions, &slots)?;
    let code = code_slots(alloc, &slots)?;
    Ok(Places { of, code })
}
