ghost use Rattle.std.specs.Prelude.{◌≡◌, ℕ, ◌<◌, length, slice_index_or, IfOk};
ghost use Rattle.relocator.specs.{Placing.{place_at, chosen_slots}, SiteWords.{row_length}, Laws.{CanLayOut, slot_at}};
ghost use Rattle.cell_values.specs.Objects.{object_of};
ghost use Rattle.placement_programme.specs.{Views.{plain_programme, plain_choice}, Rows.{first_twin}};
ghost use Rattle.result_laws.specs.{ChosenJobs.{code_number, next_code}, PlacementLaws.{regions_on}};
ghost use Rattle.relink_core.specs.Standing.{AreStanding};
ghost use Rattle.relinking.specs.TakenItems.{item_of, items_told, CanTell, copy_item, IsToldOf};

use crate::making::Relinked;
use board_config::Board;
use code_blocks::Code;
use object_graph::Graph;
use placement_programme::VarName;
use printed_lines::TakenItem;
use relink_core::{Analysis, PlacedCopy};
use relocator::Places;
use std::alloc::{AllocError, Global};

/// What a choice takes, as the lines of a report tell it, in order. It fails only where no memory was left.
pub(crate) fn taken_items(
    alloc: Global,
    analysis: &Analysis<'_>,
    board: &Board,
    relinked: &Relinked,
) -> Result<Vec<TakenItem>, AllocError>
    requires { IsToldOf board.now analysis.now relinked.now }
    ensures { IfOk result (λ items. items.items ≡ items_told analysis.now.graph analysis.now.code (chosen_slots board.now (plain_programme relinked.now.programme) (plain_choice relinked.now.found.choice))) }
{
    let names = &relinked.result.names;
    let mut items = Vec::new(alloc);
    let mut next = 0;
    for k in 0..names.len() {
        items.push(item(analysis, board, relinked, k, next))?;
        next = next_code(names[k], next);
    }
    Ok(items)
}

/// How many items of code come before the next item.
fn next_code(name: VarName, next: usize) -> usize
    requires { next < 18446744073709551615 }
    ensures { result ≡ next_code name next }
{
    match name {
        VarName::StaticCode { .. } | VarName::OverlayCode { .. } => next + 1,
        VarName::StaticData { .. } | VarName::OverlayData { .. } | VarName::KeptData { .. } => next,
    }
}

/// Item `k`, where `next` items of code come before it.
fn item(
    analysis: &Analysis<'_>,
    board: &Board,
    relinked: &Relinked,
    k: usize,
    next: usize,
) -> TakenItem
    requires told { IsToldOf board.now analysis.now relinked.now }
    requires below { k < length relinked.now.result.names.items }
    requires number { next ≡ code_number (chosen_slots board.now (plain_programme relinked.now.programme) (plain_choice relinked.now.found.choice)) k }
    ensures { result ≡ item_of analysis.now.graph analysis.now.code (slot_at (chosen_slots board.now (plain_programme relinked.now.programme) (plain_choice relinked.now.found.choice)) k) }
{
    let result = &relinked.result;
    let graph = &analysis.graph;
    match result.names[k] {
        VarName::StaticData { object } => {
            data_item(graph, &result.places, result.names[k], object, 0)
        }
        VarName::OverlayData { region, object } => {
            data_item(graph, &result.places, result.names[k], object, region)
        }
        VarName::KeptData { pair, object } => {
            data_item(graph, &result.places, result.names[k], object, 2 * pair - 1)
        }
        VarName::StaticCode { .. } | VarName::OverlayCode { .. } => {
            copy_item(&analysis.code, result.names[k], &result.copies[next])
        }
    }
}

/// An object of a name, where it stands in a region.
fn data_item(graph: &Graph, places: &Places, name: VarName, object: u32, region: u32) -> TakenItem
    requires object { object < length graph.now.objects.items }
    requires listed { object < length places.now.of.items }
    requires row { region < row_length places.now object }
    ensures { result ≡ record { name = name; place = place_at places.now object region; bytes = (object_of graph.now object).size; home = (object_of graph.now object).home } }
{
    let found = &graph.objects[object as usize];
    TakenItem {
        name,
        place: places.of[object as usize][region as usize],
        bytes: found.size,
        home: found.home,
    }
}

/// The copy of a piece of a name.
fn copy_item(code: &Code, name: VarName, copy: &PlacedCopy) -> TakenItem
    requires { CanTell code.now copy.now }
    ensures { result ≡ copy_item code.now name copy.now }
{
    TakenItem {
        name,
        place: copy.at,
        bytes: 4 * copy.code.words.len() as u32,
        home: code.blocks[copy.range.first as usize].start,
    }
}
