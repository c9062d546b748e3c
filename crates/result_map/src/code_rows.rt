//! The rows of code away from home, and of the patch range.
ghost use Rattle.std.specs.Prelude.{◌≡◌, ◌++◌, ◌+◌, ◌^◌, ◌≤◌, if◌then◌else◌, Some, OnOk, codes, length, slice_index_or};
ghost use Rattle.elf_reader.specs.File.{plain_view};
ghost use Rattle.code_blocks.specs.Blocks.{lies_in_function};
ghost use Rattle.patch_code.specs.{Serving.{test_bytes, body_bytes, serving_size}, StubPlans.{body_of, serving_stub}};
ghost use Rattle.result_map.specs.MapText.{short_row, function_over, function_tail, code_row, unit_word, unit_row, unit_rows, stub_form, stub_rows, behind_word, behind_row};

use crate::rows::{is_same, push_place, push_short, push_tail};
use board_config::Range;
use code_blocks::Function;
use elf_reader::ElfView;
use patch_code::{Body, Stub};
use printed_lines::symbol_name;
use relink_core::UnitAt;
use std::alloc::{AllocError, Global};

/// Whether an address lies in a function.
fn lies_in(function: Function, address: u32) -> bool
    ensures { result ≡ lies_in_function address function }
{
    function.start <= address
        && u64::from(address) < u64::from(function.start) + u64::from(function.size)
}

/// A function, if an address lies in it, and else what was found so far.
fn found_with(found: Option<Function>, function: Function, address: u32) -> Option<Function>
    ensures { result ≡ (if lies_in_function address function then Some function else found) }
{
    if lies_in(function, address) {
        Some(function)
    } else {
        found
    }
}

/// The function in which an address lies.
fn function_over(functions: &[Function], address: u32) -> Option<Function>
    ensures { result ≡ function_over functions.now address (length functions.now) }
{
    let mut found = None;
    for k in 0..functions.len() {
        found = found_with(found, functions[k], address);
    }
    found
}

/// Adds the function in which a home lies, if one does.
fn push_function(
    alloc: Global,
    text: &mut Vec<u8>,
    view: &ElfView<'_>,
    home: u32,
    function: Option<Function>,
) -> Result<(), AllocError>
    ensures { OnOk result (text.new.items ≡ text.old.items ++ function_tail (plain_view view.now) home function) }
{
    match function {
        Some(function) => {
            let name = symbol_name(view, function.name);
            let offset = home.saturating_sub(function.start);
            match push_tail(alloc, text, offset, name) {
                Ok(()) => Ok(()),
                Err(error) => Err(error),
            }
        }
        None => Ok(()),
    }
}

/// Adds the row of what has a home in the code.
fn push_code(
    alloc: Global,
    text: &mut Vec<u8>,
    view: &ElfView<'_>,
    functions: &[Function],
    word: &str,
    place: UnitAt,
) -> Result<(), AllocError>
    ensures { OnOk result (text.new.items ≡ text.old.items ++ code_row (plain_view view.now) functions.now word.now place) }
{
    let function = function_over(functions, place.home);
    push_place(alloc, text, word, place)?;
    push_function(alloc, text, view, place.home, function)?;
    text.push(b'\n')?;
    Ok(())
}

/// What a unit away from home is: displaced into a stub, or in a copy.
fn unit_word(patch: Range, at: u32) -> &'static str
    ensures { result.now ≡ unit_word patch at }
{
    if patch.base <= at && at - patch.base < patch.size {
        "displaced"
    } else {
        "copy"
    }
}

/// Adds the row of a form of a unit, unless it is at home.
fn push_unit(
    alloc: Global,
    text: &mut Vec<u8>,
    view: &ElfView<'_>,
    patch: Range,
    functions: &[Function],
    unit: UnitAt,
) -> Result<(), AllocError>
    ensures { OnOk result (text.new.items ≡ text.old.items ++ unit_row (plain_view view.now) patch functions.now unit) }
{
    if is_same(unit.at, unit.home) {
        return Ok(());
    }
    let word = unit_word(patch, unit.at);
    match push_code(alloc, text, view, functions, word, unit) {
        Ok(()) => Ok(()),
        Err(error) => Err(error),
    }
}

/// Adds those of all forms.
pub(crate) fn push_units(
    alloc: Global,
    text: &mut Vec<u8>,
    view: &ElfView<'_>,
    patch: Range,
    functions: &[Function],
    units: &[UnitAt],
) -> Result<(), AllocError>
    ensures { OnOk result (text.new.items ≡ text.old.items ++ unit_rows (plain_view view.now) patch functions.now units.now) }
{
    for k in 0..units.len() {
        push_unit(alloc, text, view, patch, functions, units[k])?;
    }
    Ok(())
}

/// A place of a list, 0 where it has none.
pub(crate) fn place_of(places: &[u32], k: usize) -> u32
    ensures { result ≡ slice_index_or places.now k 0 }
{
    match places.get(k) {
        Some(place) => *place,
        None => 0,
    }
}

/// Adds the row of a stub.
fn push_stub(
    alloc: Global,
    text: &mut Vec<u8>,
    view: &ElfView<'_>,
    functions: &[Function],
    stub: &Stub,
    at: u32,
) -> Result<(), AllocError>
    ensures { OnOk result (text.new.items ≡ text.old.items ++ code_row (plain_view view.now) functions.now (codes "stub") (stub_form at stub.now)) }
{
    let place = UnitAt {
        at,
        region: stub.region,
        home: stub.home,
    };
    match push_code(alloc, text, view, functions, "stub", place) {
        Ok(()) => Ok(()),
        Err(error) => Err(error),
    }
}

/// Adds the rows of all stubs, in their order, each
/// with where it stands.
pub(crate) fn push_stubs(
    alloc: Global,
    text: &mut Vec<u8>,
    view: &ElfView<'_>,
    functions: &[Function],
    stubs: &[Stub],
    places: &[u32],
) -> Result<(), AllocError>
    ensures { OnOk result (text.new.items ≡ text.old.items ++ stub_rows (plain_view view.now) functions.now stubs.now places.now) }
{
    for k in 0..stubs.len() {
        push_stub(alloc, text, view, functions, &stubs[k], place_of(places, k))?;
    }
    Ok(())
}

/// How many bytes stand in a stub before its body.
fn test_size(region: u32) -> u128
    ensures is { result ≡ test_bytes region }
    ensures few { result ≤ 88 }
{
    if region == 0 { 0 } else { 88 }
}

/// How many bytes a body has.
fn body_size(body: &Body) -> u128
    ensures is { result ≡ body_bytes (body_of body.now) }
    ensures few { result ≤ 2 ^ 66 }
{
    match body {
        Body::Jump { .. } => 8,
        Body::Words(words) => 4 * words.len() as u128,
    }
}

/// Adds the row of what stands behind a stub: the routine where there are regions, and else images of copies.
fn push_end(
    alloc: Global,
    text: &mut Vec<u8>,
    regions: u32,
    stub: &Stub,
    at: u32,
) -> Result<(), AllocError>
    ensures { OnOk result (text.new.items ≡ text.old.items ++ short_row (behind_word regions) (at + serving_size (serving_stub stub.now))) }
{
    let word = behind_word(regions);
    let end = u128::from(at) + (test_size(stub.region) + body_size(&stub.body));
    match push_short(alloc, text, end, word) {
        Ok(()) => Ok(()),
        Err(error) => Err(error),
    }
}

/// What stands behind the last stub.
fn behind_word(regions: u32) -> &'static str
    ensures { result.now ≡ behind_word regions }
{
    if regions == 0 { "images" } else { "routine" }
}

/// Adds the row of what stands behind the last stub, if there is one.
pub(crate) fn push_behind(
    alloc: Global,
    text: &mut Vec<u8>,
    regions: u32,
    stubs: &[Stub],
    places: &[u32],
) -> Result<(), AllocError>
    ensures { OnOk result (text.new.items ≡ text.old.items ++ behind_row regions stubs.now places.now) }
{
    if stubs.is_empty() {
        return Ok(());
    }
    let last = stubs.len() - 1;
    match push_end(alloc, text, regions, &stubs[last], place_of(places, last)) {
        Ok(()) => Ok(()),
        Err(error) => Err(error),
    }
}
