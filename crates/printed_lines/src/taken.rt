ghost use Rattle.std.specs.Prelude.{◌≡◌, ◌++◌, OnOk, IfOk, string_bytes};
ghost use Rattle.std.specs.List.{All};
ghost use Rattle.elf_reader.specs.File.{plain_view};
ghost use Rattle.printed_lines.specs.TakenLines.{standing_text, taken_head, object_named, label_text, taken_line, taken_lines, IsListedObject, IsPairName, IsListed};
ghost use Rattle.printed_lines.specs.Texts.{text_of};

use crate::parts::{address_text, symbol_name};
use crate::text::Text;
use elf_reader::ElfView;
use object_graph::Graph;
use placement_programme::VarName;
use std::alloc::{AllocError, Global};

/// An item that is taken, and where it stands in the scratchpad.
#[derive(Clone, Copy, PartialEq, Eq)]
pub struct TakenItem {
    /// What it is, and in which regions it stands there.
    pub name: VarName,
    /// The address of its first byte there.
    pub place: u32,
    /// How many bytes it has.
    pub bytes: u32,
    /// The address of its first byte at home; of a piece of code that of its first block.
    pub home: u32,
}

/// Adds a line for each item, in order: in which regions it stands in the scratchpad, its place, its size in bytes, and the
/// name of the object, or the home of the piece of code. It fails only where no memory was left.
pub fn push_taken_lines<'a>(
    alloc: Global,
    text: &mut Text<'a>,
    view: &ElfView<'a>,
    graph: &Graph,
    items: &[TakenItem],
) -> Result<(), AllocError>
    requires { All (IsListed graph.now.objects.items) items.now }
    ensures { OnOk result (text_of text.new ≡ text_of text.old ++ taken_lines (plain_view view.now) graph.now.objects.items items.now) }
{
    for k in 0..items.len() {
        push_taken(alloc, text, view, graph, items[k])?;
    }
    Ok(())
}

/// Adds the line of an item.
fn push_taken<'a>(
    alloc: Global,
    text: &mut Text<'a>,
    view: &ElfView<'a>,
    graph: &Graph,
    item: TakenItem,
) -> Result<(), AllocError>
    requires { IsListed graph.now.objects.items item }
    ensures { OnOk result (text_of text.new ≡ text_of text.old ++ taken_line (plain_view view.now) graph.now.objects.items item) }
{
    let standing = standing_text(alloc, item.name)?;
    let head = taken_head(alloc, &standing, item.place, item.bytes)?;
    text.push(head.as_bytes())?;
    push_label(alloc, text, view, graph, item)?;
    text.push(b"\n")
}

/// In which regions an item stands in the scratchpad, and whether it is data or code.
#[tactic(auto, unfolding(crate::specs::TakenLines::standing_text))]
fn standing_text(alloc: Global, name: VarName) -> Result<String, AllocError>
    requires { IsPairName name }
    ensures { IfOk result (λ text. string_bytes text ≡ standing_text name) }
{
    match name {
        VarName::StaticData { .. } => format!(in alloc; "static data "),
        VarName::StaticCode { .. } => format!(in alloc; "static code "),
        VarName::OverlayData { region, .. } => format!(in alloc; "overlay {region} data "),
        VarName::OverlayCode { region, .. } => format!(in alloc; "overlay {region} code "),
        VarName::KeptData { pair, .. } => {
            let second = 2 * u64::from(pair);
            let first = second - 1;
            format!(in alloc; "kept {first} {second} data ")
        }
    }
}

/// What stands before the name or the home of an item.
#[tactic(auto, unfolding(crate::specs::TakenLines::taken_head))]
fn taken_head(alloc: Global, standing: &str, place: u32, bytes: u32) -> Result<String, AllocError>
    ensures { IfOk result (λ head. string_bytes head ≡ taken_head standing.now place bytes) }
{
    let address = address_text(alloc, place)?;
    format!(in alloc; "{standing}{address} {bytes} ")
}

/// The object that a name is of.
fn object_named(name: VarName) -> Option<u32>
    ensures { result ≡ object_named name }
{
    match name {
        VarName::StaticData { object }
        | VarName::OverlayData { object, .. }
        | VarName::KeptData { object, .. } => Some(object),
        VarName::StaticCode { .. } | VarName::OverlayCode { .. } => None,
    }
}

/// Adds the name of an item's object, or where it is code the address of its home.
fn push_label<'a>(
    alloc: Global,
    text: &mut Text<'a>,
    view: &ElfView<'a>,
    graph: &Graph,
    item: TakenItem,
) -> Result<(), AllocError>
    requires { IsListedObject graph.now.objects.items (object_named item.name) }
    ensures { OnOk result (text_of text.new ≡ text_of text.old ++ label_text (plain_view view.now) graph.now.objects.items item.home (object_named item.name)) }
{
    match object_named(item.name) {
        Some(object) => text.push_name(symbol_name(view, graph.objects[object as usize].name)),
        None => text.push(address_text(alloc, item.home)?.as_bytes()),
    }
}
