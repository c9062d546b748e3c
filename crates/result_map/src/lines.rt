//! The rows of a map.
ghost use Rattle.std.specs.Prelude.{◌≡◌, ◌++◌, ◌≤◌, IfOk, OnOk};
ghost use Rattle.elf_reader.specs.File.{plain_view};
ghost use Rattle.relocator.specs.Placing.{place_at};
ghost use Rattle.result_map.specs.MapText.{rows_of_stubs, patch_rows, untold_place, placed_row, object_row, rows_of_object, object_rows, places_by, map_of, map_text};

use crate::code_rows::{place_of, push_behind, push_stubs, push_units};
use crate::rows::{is_same, push_place, push_short, push_tail};
use board_config::Range;
use code_blocks::Function;
use elf_reader::ElfView;
use object_graph::{Graph, Object};
use patch_code::Stub;
use printed_lines::symbol_name;
use relink_core::{Realised, UnitAt};
use relocator::Places;
use std::alloc::{AllocError, Global};

/// A result of a program on a board, with the forms of its units.
#[derive(Drop)]
pub struct MapParts<'a> {
    /// The program's file.
    pub view: &'a ElfView<'a>,
    /// The patch range of the board.
    pub patch: Range,
    /// The objects of the program.
    pub graph: &'a Graph,
    /// Its functions.
    pub functions: &'a [Function],
    /// How many regions the choice has.
    pub regions: u32,
    /// The result.
    pub made: &'a Realised,
    /// Where units stand in it.
    pub units: &'a [UnitAt],
}

/// The map of a result: rows of the patch range, of code away from home, and of objects. It fails only where no memory was
/// left.
pub fn map_text(alloc: Global, parts: &MapParts) -> Result<Vec<u8>, AllocError>
    requires { parts.now.regions ≤ 8 }
    ensures { IfOk result (λ text. text.items ≡ map_text (map_of parts.now)) }
{
    let mut text = Vec::new(alloc);
    push_patch(alloc, &mut text, parts)?;
    push_units(
        alloc,
        &mut text,
        parts.view,
        parts.patch,
        parts.functions,
        parts.units,
    )?;
    push_objects(alloc, &mut text, parts)?;
    Ok(text)
}

/// Adds the rows of the patch range, where something is taken or overlaid.
fn push_patch(alloc: Global, text: &mut Vec<u8>, parts: &MapParts) -> Result<(), AllocError>
    ensures { OnOk result (text.new.items ≡ text.old.items ++ patch_rows (plain_view parts.now.view.now) parts.now.patch parts.now.functions.now parts.now.regions parts.now.made.now.moved) }
{
    match &parts.made.moved {
        Some(moved) => match push_moved(alloc, text, parts, &moved.stubs, &moved.stub_at) {
            Ok(()) => Ok(()),
            Err(error) => Err(error),
        },
        None => Ok(()),
    }
}

/// Adds them: the start stub, the stubs, and what stands behind these.
fn push_moved(
    alloc: Global,
    text: &mut Vec<u8>,
    parts: &MapParts,
    stubs: &[Stub],
    places: &[u32],
) -> Result<(), AllocError>
    ensures { OnOk result (text.new.items ≡ text.old.items ++ rows_of_stubs (plain_view parts.now.view.now) parts.now.patch parts.now.functions.now parts.now.regions stubs.now places.now) }
{
    push_short(alloc, text, u128::from(parts.patch.base) + 64, "start")?;
    push_stubs(alloc, text, parts.view, parts.functions, stubs, places)?;
    push_behind(alloc, text, parts.regions, stubs, places)?;
    Ok(())
}

/// The place that a table has for an object in a region, 0 where it has none.
fn place_in(places: &Places, object: usize, region: u32) -> u32
    ensures { result ≡ place_at places.now object region }
{
    match places.of.get(object) {
        Some(row) => place_of(row, region as usize),
        None => 0,
    }
}

/// Where an object stands in a region if no row tells it.
fn untold_place(home: u32, places: &Places, object: usize, region: u32) -> u32
    ensures { result ≡ untold_place home (places_by places.now) object region }
{
    if region == 0 {
        home
    } else {
        place_in(places, object, 0)
    }
}

/// Adds the row of an object at a place in a region.
fn push_placed(
    alloc: Global,
    text: &mut Vec<u8>,
    object: Object,
    view: &ElfView<'_>,
    at: u32,
    region: u32,
) -> Result<(), AllocError>
    ensures { OnOk result (text.new.items ≡ text.old.items ++ placed_row (plain_view view.now) object at region) }
{
    let place = UnitAt {
        at,
        region,
        home: object.home,
    };
    push_place(alloc, text, "object", place)?;
    push_tail(alloc, text, object.size, symbol_name(view, object.name))?;
    text.push(b'\n')?;
    Ok(())
}

/// Adds the row of an object in a region, unless it stands there untold.
fn push_object(
    alloc: Global,
    text: &mut Vec<u8>,
    view: &ElfView<'_>,
    object: Object,
    stands: (u32, u32),
    region: u32,
) -> Result<(), AllocError>
    ensures { OnOk result (text.new.items ≡ text.old.items ++ object_row (plain_view view.now) object stands.0 stands.1 region) }
{
    let (at, untold) = stands;
    if is_same(at, untold) {
        return Ok(());
    }
    match push_placed(alloc, text, object, view, at, region) {
        Ok(()) => Ok(()),
        Err(error) => Err(error),
    }
}

/// Adds the rows of object `k` in all regions.
fn push_object_rows(
    alloc: Global,
    text: &mut Vec<u8>,
    object: Object,
    k: usize,
    parts: &MapParts,
) -> Result<(), AllocError>
    requires { parts.now.regions ≤ 8 }
    ensures { OnOk result (text.new.items ≡ text.old.items ++ rows_of_object (plain_view parts.now.view.now) object (places_by parts.now.made.now.places) parts.now.regions k) }
{
    for region in 0..parts.regions + 1 {
        let at = place_in(&parts.made.places, k, region);
        let untold = untold_place(object.home, &parts.made.places, k, region);
        push_object(alloc, text, parts.view, object, (at, untold), region)?;
    }
    Ok(())
}

/// Adds those of all objects.
fn push_objects(alloc: Global, text: &mut Vec<u8>, parts: &MapParts) -> Result<(), AllocError>
    requires { parts.now.regions ≤ 8 }
    ensures { OnOk result (text.new.items ≡ text.old.items ++ object_rows (plain_view parts.now.view.now) parts.now.graph.now.objects.items (places_by parts.now.made.now.places) parts.now.regions) }
{
    for k in 0..parts.graph.objects.len() {
        let object = parts.graph.objects[k];
        push_object_rows(alloc, text, object, k, parts)?;
    }
    Ok(())
}
