ghost use Rattle.std.specs.Prelude.{◌≡◌, ℕ, ◌+◌, ◌*◌, ◌<◌, ◌≤◌, ◌++◌, ◌∷◌, [], List, Option, Some, None, map, length, option_map, OnOk, IfOk, All};
ghost use Rattle.elf_reader.specs.{File.{IsFile, plain_symbol, plain_view, view_in}, Faults.{first_fault}};
ghost use Rattle.elf_writer.specs.{Pieces.{half_bytes, word_bytes}, Changes.{Change, changed}, Parts.{new_segment, patch_change, moves_changes, content_changes, table_place, header_changes}, Written.{appended, written}, Fits.{PatchFits, MoveFits, SegmentFits, WriteFits}, Conditions.{IsWritable, HasWordValue, HasWords}, View.{written_view}};

use crate::changing::{put_half, put_moves, put_patches, put_word};
use crate::parts::{Patch, SegmentBytes, SymbolMove};
use crate::pieces::{padding_after, push_zeros};
use crate::program_headers::push_table;
use elf_reader::{ElfView, PROGRAM_HEADER_SIZE, Symbol};
use std::alloc::{AllocError, Global};

// Where fields stand in the ELF header (ELF, "ELF Header": `Elf32_Ehdr`).
const E_ENTRY: usize = 24;

const E_PHOFF: usize = 28;

const E_PHNUM: usize = 44;

/// Puts the words of patches, and gives moved symbols their values.
#[tactic(auto, using(crate::proofs::ChangeLemmas::changed_twice))]
fn put_contents(out: &mut [u8], patches: &[Patch], symbols: &[Symbol], moves: &[SymbolMove])
    requires patches { All (PatchFits (length out.old)) patches.now }
    requires moves { All (MoveFits (length out.old) (map plain_symbol symbols.now)) moves.now }
    ensures words { All HasWordValue moves.now }
    ensures new { out.new ≡ changed (map patch_change patches.now ++ moves_changes (map plain_symbol symbols.now) moves.now) 0 out.old }
{
    put_patches(out, patches);
    put_moves(out, symbols, moves);
}

/// Puts what a new segment changes in the ELF header: where execution begins, where the program headers
/// stand, and how many they are.
fn put_header(out: &mut [u8], entry: u32, table: u32, count: u16)
    requires { 52 ≤ length out.old }
    ensures { out.new ≡ changed (record { place = 24; content = word_bytes entry } ∷ record { place = 28; content = word_bytes table } ∷ record { place = 44; content = half_bytes count } ∷ []) 0 out.old }
{
    put_word(out, E_ENTRY, entry);
    put_word(out, E_PHOFF, table);
    put_half(out, E_PHNUM, count);
}

/// Appends what stands behind the input's bytes: zeros to a multiple of 4, the program headers, whose place
/// is `table`, and the bytes of the new segment.
fn push_segment(
    out: &mut Vec<u8>,
    base: &ElfView,
    segment: &SegmentBytes,
    table: usize,
) -> Result<(), AllocError>
    requires fits { SegmentFits (plain_view base.now) (new_segment segment.now) }
    requires place { table ≡ table_place (plain_view base.now) }
    requires length { length base.now.bytes.now ≤ table }
    ensures { OnOk result (out.new.items ≡ out.old.items ++ appended (plain_view base.now) (Some (new_segment segment.now))) }
{
    let content = table + PROGRAM_HEADER_SIZE * (base.ph_count as usize + 1);
    push_zeros(out, table - base.bytes.len())?;
    push_table(out, base, segment, content as u32)?;
    out.extend_from_slice(&segment.bytes)?;
    Ok(())
}

/// Adds a segment to a file's changed bytes.
fn with_segment(
    mut out: Vec<u8>,
    base: &ElfView,
    segment: &SegmentBytes,
) -> Result<Vec<u8>, AllocError>
    requires fits { SegmentFits (plain_view base.now) (new_segment segment.now) }
    requires length { length out.items ≡ length base.now.bytes.now }
    ensures word { segment.now.entry < 4294967296 }
    ensures new { IfOk result (λ new. new.items ≡ changed (header_changes (plain_view base.now) (new_segment segment.now)) 0 out.items ++ appended (plain_view base.now) (Some (new_segment segment.now))) }
{
    let size = base.bytes.len();
    let table = size + padding_after(size);
    put_header(
        &mut out,
        segment.entry,
        table as u32,
        (base.ph_count + 1) as u16,
    );
    push_segment(&mut out, base, segment, table)?;
    Ok(out)
}

/// The bytes of a file with patched words and moved symbols.
fn with_contents(
    alloc: Global,
    base: &ElfView,
    patches: &[Patch],
    moves: &[SymbolMove],
) -> Result<Vec<u8>, AllocError>
    requires patches { All (PatchFits (length base.now.bytes.now)) patches.now }
    requires moves { All (MoveFits (length base.now.bytes.now) (plain_view base.now).symbols) moves.now }
    ensures words { OnOk result (All HasWordValue moves.now) }
    ensures new { IfOk result (λ out. out.items ≡ changed (content_changes (plain_view base.now) patches.now moves.now) 0 base.now.bytes.now) }
{
    let mut out = base.bytes.to_vec(alloc)?;
    put_contents(&mut out, patches, &base.symbols, moves);
    Ok(out)
}

/// The bytes of a file with patched words, moved symbols, and one more segment if there is one.
fn write_fitting(
    alloc: Global,
    base: &ElfView,
    segment: Option<&SegmentBytes>,
    patches: &[Patch],
    moves: &[SymbolMove],
) -> Result<Vec<u8>, AllocError>
    requires { WriteFits (plain_view base.now) patches.now (option_map (λ s. new_segment s.now) segment) moves.now }
    ensures words { OnOk result (HasWords (option_map (λ s. new_segment s.now) segment.entry) moves.now) }
    ensures bytes { IfOk result (λ out. out.items ≡ written (plain_view base.now) patches.now (option_map (λ s. new_segment s.now) segment.entry) moves.now) }
{
    let out = with_contents(alloc, base, patches, moves)?;
    match segment {
        None => Ok(out),
        Some(segment) => with_segment(out, base, segment),
    }
}

/// Writes a file anew: with patched words, with moved symbols, which get absolute values, and, if there is
/// one, with a segment more.
///
/// Without a segment these are the input's bytes with the patches and moves alone. With one there follow
/// zeros to a multiple of 4, the program headers, and the segment's bytes; and the ELF header has the
/// segment's entry, the place of the program headers and their count. The program headers are those of the
/// input as they stood there, and that of the segment: it stands before the first segment to be loaded that
/// begins at a higher address, or last.
#[tactic(auto, using(crate::proofs::FitLemmas::view_fits))]
pub fn write(
    alloc: Global,
    base: &ElfView,
    patches: &[Patch],
    segment: Option<&SegmentBytes>,
    moves: &[SymbolMove],
) -> Result<Vec<u8>, AllocError>
    requires file { IsFile base.now.bytes.now base.now }
    requires sound { first_fault base.now.bytes.now ≡ None }
    requires writable { IsWritable (plain_view base.now) patches.now (option_map (λ s. new_segment s.now) segment) moves.now }
    ensures words { OnOk result (HasWords (option_map (λ s. new_segment s.now) segment.entry) moves.now) }
    ensures bytes { IfOk result (λ out. out.items ≡ written (plain_view base.now) patches.now (option_map (λ s. new_segment s.now) segment.entry) moves.now) }
    ensures reads { IfOk result (λ out. view_in out.items ≡ written_view (plain_view base.now) patches.now (option_map (λ s. new_segment s.now) segment.entry) moves.now) }
{
    write_fitting(alloc, base, segment, patches, moves)
}
