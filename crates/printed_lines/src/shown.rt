ghost use Rattle.std.specs.Prelude.{◌≡◌, ◌++◌, IfOk, OnOk, length, string_bytes};
ghost use Rattle.std.specs.List.Sorted.{IsStrictlyIncreasing};
ghost use Rattle.elf_reader.specs.File.{plain_view};
ghost use Rattle.code_blocks.specs.Numbers.{starts_of};
ghost use Rattle.printed_lines.specs.{ProfileLines.{named_line}, ShowLines.{addressed_head, movable_lines, region_at, function_lines, show_text}, Texts.{text_of}};

use crate::parts::{address_text, push_named, symbol_name};
use crate::text::Text;
use code_blocks::Code;
use elf_reader::ElfView;
use object_graph::Graph;
use region_former::RegionTable;
use std::alloc::{AllocError, Global};

/// The lines that show what may move: each object that may, by home, with its size in bytes; and each function, by
/// address, with the region of the block that begins there (0 is none). It fails only where no memory was left.
pub fn show_lines<'a>(
    alloc: Global,
    view: &ElfView<'a>,
    graph: &Graph,
    code: &Code,
    regions: &RegionTable,
) -> Result<Text<'a>, AllocError>
    requires ascending { IsStrictlyIncreasing (starts_of code.now) }
    requires regions { length regions.now.of_block.items ≡ length code.now.blocks.items }
    ensures { IfOk result (λ text. text_of text ≡ show_text (plain_view view.now) graph.now.objects.items code.now.functions.items (starts_of code.now) regions.now.of_block.items) }
{
    let mut text = Text::plain(Vec::new(alloc));
    push_movables(alloc, &mut text, view, graph)?;
    push_functions(alloc, &mut text, code, regions, view)?;
    Ok(text)
}

/// Adds a line for each object that may move.
fn push_movables<'a>(
    alloc: Global,
    text: &mut Text<'a>,
    view: &ElfView<'a>,
    graph: &Graph,
) -> Result<(), AllocError>
    ensures { OnOk result (text_of text.new ≡ text_of text.old ++ movable_lines (plain_view view.now) graph.now.objects.items) }
{
    for k in 0..graph.objects.len() {
        let object = graph.objects[k];
        let name = symbol_name(view, object.name);
        push_addressed(alloc, text, name, "object", object.home, object.size)?;
    }
    Ok(())
}

/// Adds a line for each function.
fn push_functions<'a>(
    alloc: Global,
    text: &mut Text<'a>,
    code: &Code,
    regions: &RegionTable,
    view: &ElfView<'a>,
) -> Result<(), AllocError>
    requires ascending { IsStrictlyIncreasing (starts_of code.now) }
    requires regions { length regions.now.of_block.items ≡ length code.now.blocks.items }
    ensures { OnOk result (text_of text.new ≡ text_of text.old ++ function_lines (plain_view view.now) code.now.functions.items (starts_of code.now) regions.now.of_block.items) }
{
    for k in 0..code.functions.len() {
        let function = code.functions[k];
        let name = symbol_name(view, function.name);
        let region = region_at(code, regions, function.start);
        push_addressed(alloc, text, name, "function", function.start, region)?;
    }
    Ok(())
}

/// The region of the block that begins at an address, and 0 where none does.
fn region_at(code: &Code, regions: &RegionTable, address: u32) -> u32
    requires ascending { IsStrictlyIncreasing (starts_of code.now) }
    requires regions { length regions.now.of_block.items ≡ length code.now.blocks.items }
    ensures { result ≡ region_at (starts_of code.now) regions.now.of_block.items address }
{
    match code.block_at(address) {
        Some(block) => regions.of_block[block as usize],
        None => 0,
    }
}

/// Adds the line of what has an address, a number and a name.
fn push_addressed<'a>(
    alloc: Global,
    text: &mut Text<'a>,
    name: &'a [u8],
    word: &str,
    address: u32,
    number: u32,
) -> Result<(), AllocError>
    ensures { OnOk result (text_of text.new ≡ text_of text.old ++ named_line (addressed_head word.now address number) name.now) }
{
    let head = addressed_head(alloc, word, address, number)?;
    push_named(text, head.as_bytes(), name)?;
    Ok(())
}

/// How such a line begins.
fn addressed_head(
    alloc: Global,
    word: &str,
    address: u32,
    number: u32,
) -> Result<String, AllocError>
    ensures { IfOk result (λ head. string_bytes head ≡ addressed_head word.now address number) }
{
    let address = address_text(alloc, address)?;
    format!(in alloc; "{word} {address} {number} ")
}
