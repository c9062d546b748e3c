ghost use Rattle.std.specs.Prelude.{◌≡◌, ℕ, ◌==◌, ◌&&◌, ◌||◌, length, IfOk, OnOk};
ghost use Rattle.std.specs.List.{list_any};
ghost use Rattle.list_checks.specs.Tests.{any_below};
ghost use Rattle.elf_reader.specs.File.{plain_segment, plain_section, plain_view};
ghost use Rattle.object_graph.specs.{Graphs.{IsGraph}, Sites.{holds_changed_byte}, Spans.{holds, any_holds}, Kinds.{is_changing, in_object_of_list, is_put_from, puts_table, puts_changed_byte}};

use crate::spans::{Span, push_ranges, push_span, span_of};
use crate::{Graph, Object};
use board_config::{Board, Range};
use elf_reader::{ElfView, SHT_SYMTAB, Section, Segment};
use std::alloc::{AllocError, Global};

/// The bytes of the ELF header (ELF, "ELF Header": `e_ehsize` of a 32-bit file).
const HEADER_SIZE: u32 = 52;

/// The scratchpad, the patch range, code, the objects that may move, and bytes of the file that a new file
/// changes.
pub(crate) fn changing_spans(
    alloc: Global,
    view: &ElfView,
    board: &Board,
    graph: &Graph,
) -> Result<Vec<Span>, AllocError>
    requires { IsGraph (plain_view view.now) board.now graph.now }
    ensures { IfOk result (λ spans. (a : ℕ) → any_holds spans.items a ≡ is_changing (plain_view view.now) board.now a) }
{
    let mut spans = Vec::new(alloc);
    push_span(&mut spans, span_of(&board.spm))?;
    push_span(&mut spans, span_of(&board.patch))?;
    push_ranges(&mut spans, &graph.code)?;
    push_objects(&mut spans, &graph.objects)?;
    push_changed_bytes(&mut spans, view)?;
    Ok(spans)
}

/// Appends the spans of objects.
fn push_objects(spans: &mut Vec<Span>, objects: &[Object]) -> Result<(), AllocError>
    ensures { OnOk result ((a : ℕ) → any_holds spans.new.items a ≡ (any_holds spans.old.items a || list_any (in_object_of_list a) objects.now)) }
{
    for object in objects {
        let range = Range {
            base: object.home,
            size: object.size,
        };
        push_span(spans, span_of(&range))?;
    }
    Ok(())
}

/// Appends where the segments put the ELF header and the symbol table.
fn push_changed_bytes(spans: &mut Vec<Span>, view: &ElfView) -> Result<(), AllocError>
    ensures { OnOk result ((a : ℕ) → any_holds spans.new.items a ≡ (any_holds spans.old.items a || any_below (holds_changed_byte (plain_view view.now) a) (length (plain_view view.now).segments))) }
{
    for g in 0..view.segments.len() {
        push_changed_bytes_of(spans, view, &view.segments[g])?;
    }
    Ok(())
}

/// Appends where one segment puts them.
fn push_changed_bytes_of(
    spans: &mut Vec<Span>,
    view: &ElfView,
    segment: &Segment,
) -> Result<(), AllocError>
    ensures { OnOk result ((a : ℕ) → any_holds spans.new.items a ≡ (any_holds spans.old.items a || puts_changed_byte (plain_view view.now) (plain_segment segment.now) a (length (plain_view view.now).sections))) }
{
    push_span(spans, span_in(segment, 0, HEADER_SIZE))?;
    for k in 0..view.sections.len() {
        push_table(spans, segment, &view.sections[k])?;
    }
    Ok(())
}

/// Appends where a segment puts a section, if that is the symbol table.
fn push_table(spans: &mut Vec<Span>, segment: &Segment, section: &Section) -> Result<(), AllocError>
    ensures { OnOk result ((a : ℕ) → any_holds spans.new.items a ≡ (any_holds spans.old.items a || puts_table (plain_segment segment.now) (plain_section section.now) a)) }
{
    if section.kind == SHT_SYMTAB {
        push_span(spans, span_in(segment, section.offset, section.size))?;
    }
    Ok(())
}

/// Where a segment puts those of the `size` bytes of the file from `from` that it has.
fn span_in(segment: &Segment, from: u32, size: u32) -> Span
    ensures { (a : ℕ) → holds a result ≡ is_put_from (plain_segment segment.now) from size a }
{
    let base = u64::from(segment.vaddr);
    let place = u64::from(segment.offset);
    let filled = base + segment.bytes.len() as u64;
    let end = u64::from(from) + u64::from(size);
    Span {
        start: base + u64::from(from.saturating_sub(segment.offset)),
        end: filled.min(base + end.saturating_sub(place)),
    }
}
