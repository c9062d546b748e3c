//! The text of a trace.
ghost use Rattle.std.specs.Prelude.{◌≡◌, ◌++◌, IfOk, OnOk, List, string_bytes};
ghost use Rattle.elf_reader.specs.File.{plain_view};
ghost use Rattle.loaded_file.specs.Records.{symbol_at};
ghost use Rattle.object_graph.specs.Graphs.{object_at};
ghost use Rattle.compare_runner.specs.Marks.{start_text, kind_text, place_text, offset_text, named_text, access_text, step_text};

use crate::marks::{TracedAccess, TracedStep};
use elf_reader::ElfView;
use object_graph::Graph;
use printed_lines::{address_text, symbol_name};
use std::alloc::{AllocError, Global};

/// The first line: how many steps the result takes before the first unit of the program.
pub(crate) fn start_line(alloc: Global, start: u64) -> Result<Vec<u8>, AllocError>
    ensures { IfOk result (λ text. text.items ≡ start_text start) }
{
    let line = format!(in alloc; "start {start}\n")?;
    Ok(line.into_bytes())
}

/// Where the unit of a step stands, in the program and in the result, and how many steps the result takes for it.
#[tactic(auto, unfolding(crate::specs::Marks::place_text))]
fn place_text(alloc: Global, step: &TracedStep) -> Result<String, AllocError>
    ensures { IfOk result (λ text. string_bytes text ≡ place_text step.now) }
{
    let home = address_text(alloc, step.home)?;
    let at = address_text(alloc, step.at)?;
    let steps = step.steps;
    format!(in alloc; "{home} {at} {steps}")
}

/// The name of an object: that of its first symbol.
fn object_name<'a>(view: &ElfView<'a>, graph: &Graph, object: u32) -> &'a [u8]
    ensures { result.now ≡ (symbol_at (plain_view view.now) (object_at graph.now.objects.items object).name).name }
{
    match graph.objects.get(object as usize) {
        Some(object) => symbol_name(view, object.name),
        None => symbol_name(view, 0),
    }
}

/// What is told of the kind of an access.
fn kind_text(write: bool) -> &'static [u8]
    ensures { result.now ≡ kind_text write }
{
    if write { b" w " } else { b" r " }
}

/// The offset and the address of an access.
fn offset_text(alloc: Global, access: &TracedAccess) -> Result<String, AllocError>
    ensures { IfOk result (λ text. string_bytes text ≡ offset_text access.now) }
{
    let at = address_text(alloc, access.at)?;
    let offset = access.offset;
    format!(in alloc; " {offset} {at}")
}

/// Adds an access of an object.
fn push_access(
    alloc: Global,
    text: &mut Vec<u8>,
    view: &ElfView,
    graph: &Graph,
    access: &TracedAccess,
) -> Result<(), AllocError>
    ensures { OnOk result (text.new.items ≡ text.old.items ++ named_text (plain_view view.now) graph.now.objects.items access.now) }
{
    let offset = offset_text(alloc, access)?;
    text.extend_from_slice(kind_text(access.write))?;
    text.extend_from_slice(object_name(view, graph, access.object))?;
    text.extend_from_slice(offset.as_bytes())?;
    Ok(())
}

/// Adds that of a step, if it has one.
fn push_told(
    alloc: Global,
    text: &mut Vec<u8>,
    view: &ElfView,
    graph: &Graph,
    access: Option<TracedAccess>,
) -> Result<(), AllocError>
    ensures { OnOk result (text.new.items ≡ text.old.items ++ access_text (plain_view view.now) graph.now.objects.items access) }
{
    match access {
        Some(access) => match push_access(alloc, text, view, graph, &access) {
            Ok(()) => Ok(()),
            Err(error) => Err(error),
        },
        None => Ok(()),
    }
}

/// Adds the line of a step.
pub(crate) fn push_step(
    alloc: Global,
    text: &mut Vec<u8>,
    view: &ElfView,
    graph: &Graph,
    step: &TracedStep,
) -> Result<(), AllocError>
    ensures { OnOk result (text.new.items ≡ text.old.items ++ step_text (plain_view view.now) graph.now.objects.items step.now) }
{
    let place = place_text(alloc, step)?;
    text.extend_from_slice(place.as_bytes())?;
    push_told(alloc, text, view, graph, step.access)?;
    text.push(b'\n')?;
    Ok(())
}
