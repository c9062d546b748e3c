ghost use Rattle.std.specs.Prelude.{◌≡◌, ◌++◌, IfOk, OnOk, length, sum, string_bytes};
ghost use Rattle.elf_reader.specs.File.{plain_view};
ghost use Rattle.code_blocks.specs.Numbers.{starts_of};
ghost use Rattle.profile_runner.specs.Counts.{plain_rows};
ghost use Rattle.printed_lines.specs.{Endings.{IsAddressFault}, ProfileLines.{head_text, started_text, line_of_block, block_lines, line_of_object, object_lines, profile_text}, Texts.{text_of}};

use crate::endings::ending_line;
use crate::parts::{address_text, symbol_name};
use crate::text::Text;
use code_blocks::Code;
use elf_reader::ElfView;
use object_graph::Graph;
use object_machine::Outcome;
use profile_runner::Profile;
use std::alloc::{AllocError, Global};

/// The lines of a profile: how many steps the program took, and how it stands then; how often each block began
/// that began, by address; and how often each object was read and written, by home. It fails only where no memory was
/// left.
pub fn profile_lines<'a>(
    alloc: Global,
    view: &ElfView<'a>,
    graph: &Graph,
    code: &Code,
    profile: &Profile,
) -> Result<Text<'a>, AllocError>
    requires ending { IsAddressFault profile.now.outcome → ⊥ }
    requires blocks { length profile.now.arrivals.items ≡ length code.now.blocks.items }
    requires reads { length profile.now.reads.items ≡ length graph.now.objects.items }
    requires writes { length profile.now.writes.items ≡ length graph.now.objects.items }
    ensures { IfOk result (λ text. text_of text ≡ profile_text (plain_view view.now) graph.now.objects.items (starts_of code.now) profile.now) }
{
    let mut text = Text::plain(head(alloc, profile.steps, profile.outcome)?);
    push_blocks(alloc, &mut text, code, profile)?;
    push_objects(alloc, &mut text, view, graph, profile)?;
    Ok(text)
}

/// The first two lines.
fn head(alloc: Global, steps: u64, outcome: Outcome) -> Result<Vec<u8>, AllocError>
    requires { IsAddressFault outcome → ⊥ }
    ensures { IfOk result (λ text. text.items ≡ head_text steps outcome) }
{
    let ending = ending_line(alloc, outcome)?;
    let head = format!(in alloc; "steps {steps}\n{ending}")?;
    Ok(head.into_bytes())
}

/// Adds a line for each block that began.
fn push_blocks(
    alloc: Global,
    text: &mut Text<'_>,
    code: &Code,
    profile: &Profile,
) -> Result<(), AllocError>
    requires { length profile.now.arrivals.items ≡ length code.now.blocks.items }
    ensures { OnOk result (text_of text.new ≡ text_of text.old ++ block_lines (starts_of code.now) profile.now.arrivals.items) }
{
    for k in 0..profile.arrivals.len() {
        push_block(alloc, text, code.blocks[k].start, profile.arrivals[k])?;
    }
    Ok(())
}

/// Adds the line of a block that began so often, if it began.
fn push_block(
    alloc: Global,
    text: &mut Text<'_>,
    start: u32,
    arrivals: u64,
) -> Result<(), AllocError>
    ensures { OnOk result (text_of text.new ≡ text_of text.old ++ line_of_block start arrivals) }
{
    if arrivals == 0 {
        return Ok(());
    }
    let line = started_line(alloc, start, arrivals)?;
    text.push(line.as_bytes())?;
    Ok(())
}

/// The line of a block that began so often.
fn started_line(alloc: Global, start: u32, arrivals: u64) -> Result<String, AllocError>
    ensures { IfOk result (λ line. string_bytes line ≡ started_text start arrivals) }
{
    let address = address_text(alloc, start)?;
    format!(in alloc; "block {address} {arrivals}\n")
}

/// Adds a line for each object.
fn push_objects<'a>(
    alloc: Global,
    text: &mut Text<'a>,
    view: &ElfView<'a>,
    graph: &Graph,
    profile: &Profile,
) -> Result<(), AllocError>
    requires reads { length profile.now.reads.items ≡ length graph.now.objects.items }
    requires writes { length profile.now.writes.items ≡ length graph.now.objects.items }
    ensures { OnOk result (text_of text.new ≡ text_of text.old ++ object_lines (plain_view view.now) graph.now.objects.items (plain_rows profile.now.reads.items) (plain_rows profile.now.writes.items)) }
{
    for k in 0..graph.objects.len() {
        let name = symbol_name(view, graph.objects[k].name);
        let reads = total(&profile.reads[k]);
        let writes = total(&profile.writes[k]);
        push_object(alloc, text, reads, writes, name)?;
    }
    Ok(())
}

/// Adds the line of an object.
fn push_object<'a>(
    alloc: Global,
    text: &mut Text<'a>,
    reads: u128,
    writes: u128,
    name: &'a [u8],
) -> Result<(), AllocError>
    ensures { OnOk result (text_of text.new ≡ text_of text.old ++ line_of_object reads writes name.now) }
{
    let counts = format!(in alloc; "object {reads} {writes} ")?;
    text.push(counts.as_bytes())?;
    text.push_name(name)?;
    text.push(b"\n")?;
    Ok(())
}

/// The sum of counts.
fn total(counts: &[u64]) -> u128
    ensures { result ≡ sum counts.now }
{
    let mut total: u128 = 0;
    for count in counts {
        total += u128::from(*count);
    }
    total
}
