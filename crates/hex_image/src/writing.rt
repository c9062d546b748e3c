ghost use Rattle.std.specs.Prelude.{◌≡◌, ℕ, ◌+◌, ◌<◌, ◌≤◌, ◌==◌, true, false, List, [], ◌∷◌, ◌++◌, All, count_by, length, map, IfOk, OnOk};
ghost use Rattle.elf_reader.specs.{File.{segments_of, plain_segment}, Loadable.{IsLoadable, AreLoadable, AreDisjoint}};
ghost use Rattle.hex_image.specs.{Runs.{PlainRun, run_at}, Records.{line_of}, Text.{hex_text, hex_records, plain_block, IsPlaced, text_with, filled_runs, runs_by_address, pieces_of, is_cut, upper_record, entry_record, end_record, tail_records, data_record}, Reading.{is_newline}};
ghost use Rattle.std.specs.List.{flat_map};

use crate::records::{Record, kind, push_line};
use elf_reader::{ElfView, Segment};
use std::alloc::{AllocError, Global};

/// The most data bytes of a record that is written.
const PIECE_SIZE: u32 = 16;

/// Data of a record stays within as many bytes.
const UPPER_SIZE: u32 = 1 << 16;

/// The file bytes of a segment.
#[derive(Clone, Copy)]
struct Block<'a> {
    start: u32,
    bytes: &'a [u8],
}

/// The text so far, and the upper half of addresses that it gave last.
#[derive(Drop)]
struct HexText {
    bytes: Vec<u8>,
    upper: Option<u16>,
}

/// The text of a file (Intel, "Hexadecimal Object File Format Specification", Revision A, 1988): the file
/// bytes of its segments by address, cut every 16 bytes and at multiples of 2 ^ 16, and its entry. An error
/// comes only where no memory was left.
pub fn write_hex(alloc: Global, view: &ElfView) -> Result<Vec<u8>, AllocError>
    requires loadable { AreLoadable (segments_of view.now) }
    requires disjoint { AreDisjoint (segments_of view.now) }
    ensures text { IfOk result (λ text. text.items ≡ hex_text (segments_of view.now) view.now.entry) }
    ensures records { IfOk result (λ text. count_by is_newline text.items ≡ length (hex_records (segments_of view.now) view.now.entry)) }
{
    let blocks = blocks_by_address(alloc, view)?;
    let mut text = HexText {
        bytes: Vec::new(alloc),
        upper: None,
    };
    push_blocks(alloc, &mut text, &blocks)?;
    push_tail(alloc, &mut text.bytes, view.entry)?;
    Ok(text.bytes)
}

/// The blocks of the segments that have file bytes, by address.
fn blocks_by_address<'a>(alloc: Global, view: &ElfView<'a>) -> Result<Vec<Block<'a>>, AllocError>
    requires loadable { AreLoadable (segments_of view.now) }
    requires disjoint { AreDisjoint (segments_of view.now) }
    ensures runs { IfOk result (λ blocks. map plain_block blocks.items ≡ runs_by_address (segments_of view.now)) }
    ensures placed { IfOk result (λ blocks. All IsPlaced blocks.items) }
{
    let mut blocks = filled_blocks(alloc, view)?;
    blocks.sort_by_key(|block| block.start)?;
    Ok(blocks)
}

/// The blocks of the segments that have file bytes, in the order of the segments.
fn filled_blocks<'a>(alloc: Global, view: &ElfView<'a>) -> Result<Vec<Block<'a>>, AllocError>
    requires { AreLoadable (segments_of view.now) }
    ensures runs { IfOk result (λ blocks. map plain_block blocks.items ≡ filled_runs (segments_of view.now)) }
    ensures placed { IfOk result (λ blocks. All IsPlaced blocks.items) }
{
    let mut blocks = Vec::new(alloc);
    for segment in &view.segments {
        push_filled(&mut blocks, segment)?;
    }
    Ok(blocks)
}

/// Adds the block of a segment, if it has file bytes.
fn push_filled<'a>(blocks: &mut Vec<Block<'a>>, segment: &Segment<'a>) -> Result<(), AllocError>
    requires { IsLoadable (plain_segment segment.now) }
    ensures runs { OnOk result (map plain_block blocks.new.items ≡ map plain_block blocks.old.items ++ filled_runs (plain_segment segment.now ∷ [])) }
    ensures placed { OnOk result (All IsPlaced blocks.old.items → All IsPlaced blocks.new.items) }
{
    if !segment.bytes.is_empty() {
        blocks.push(Block {
            start: segment.vaddr,
            bytes: segment.bytes,
        })?;
    }
    Ok(())
}

/// Adds the records of blocks.
fn push_blocks(alloc: Global, text: &mut HexText, blocks: &[Block]) -> Result<(), AllocError>
    requires { All IsPlaced blocks.now }
    ensures { OnOk result ((more : List PlainRun) → text_with text.new more ≡ text_with text.old (flat_map pieces_of (map plain_block blocks.now) ++ more)) }
{
    for block in blocks {
        push_block(alloc, text, block)?;
    }
    Ok(())
}

/// Adds the records of a block.
fn push_block(alloc: Global, text: &mut HexText, block: &Block) -> Result<(), AllocError>
    requires { IsPlaced block.now }
    ensures { OnOk result ((more : List PlainRun) → text_with text.new more ≡ text_with text.old (pieces_of (plain_block block.now) ++ more)) }
{
    let mut rest = block.bytes;
    let mut address = block.start;
    while !rest.is_empty() {
        let size = (until_cut(block.start, address) as usize).min(rest.len());
        let (piece, behind) = rest.split_at(size);
        push_piece(alloc, text, address, piece)?;
        address += size as u32;
        rest = behind;
    }
    Ok(())
}

/// How many bytes come before the next cut of a run whose first address is `first`.
fn until_cut(first: u32, address: u32) -> u32
    requires { first ≤ address }
    ensures some { 0 < result }
    ensures few { result ≤ 16 }
    ensures inside { (k : ℕ) → 0 < k → k < result → is_cut first (address + k) ≡ false }
    ensures cut { is_cut first (address + result) ≡ true }
{
    let until_size = PIECE_SIZE - (address - first) % PIECE_SIZE;
    let until_upper = UPPER_SIZE - address % UPPER_SIZE;
    until_size.min(until_upper)
}

/// Adds the records of a piece.
fn push_piece(alloc: Global, text: &mut HexText, start: u32, piece: &[u8]) -> Result<(), AllocError>
    requires { length piece.now < 256 }
    ensures { OnOk result ((more : List PlainRun) → text_with text.new more ≡ text_with text.old (run_at start piece.now ∷ more)) }
{
    let upper = (start >> 16) as u16;
    if text.upper != Some(upper) {
        push_upper(alloc, &mut text.bytes, upper)?;
        text.upper = Some(upper);
    }
    push_data(alloc, &mut text.bytes, start, piece)
}

fn push_data(alloc: Global, text: &mut Vec<u8>, start: u32, piece: &[u8]) -> Result<(), AllocError>
    requires { length piece.now < 256 }
    ensures { OnOk result (text.new.items ≡ text.old.items ++ line_of (data_record (run_at start piece.now))) }
{
    let record = Record {
        kind: kind::DATA,
        address: (start % UPPER_SIZE) as u16,
        bytes: piece,
    };
    push_line(alloc, text, &record)
}

/// Adds a record that has no address.
fn push_other(alloc: Global, text: &mut Vec<u8>, kind: u8, bytes: &[u8]) -> Result<(), AllocError>
    requires { length bytes.now < 256 }
    ensures { OnOk result (text.new.items ≡ text.old.items ++ line_of record { kind = kind; address = 0; content = bytes.now }) }
{
    let record = Record {
        kind,
        address: 0,
        bytes,
    };
    push_line(alloc, text, &record)
}

fn push_upper(alloc: Global, text: &mut Vec<u8>, upper: u16) -> Result<(), AllocError>
    ensures { OnOk result (text.new.items ≡ text.old.items ++ line_of (upper_record upper)) }
{
    let bytes = upper.to_be_bytes();
    push_other(alloc, text, kind::EXTENDED_LINEAR_ADDRESS, &bytes)
}

/// Adds the record of the entry and the last one.
fn push_tail(alloc: Global, text: &mut Vec<u8>, entry: u32) -> Result<(), AllocError>
    ensures { OnOk result (text.new.items ≡ text.old.items ++ flat_map line_of (tail_records entry)) }
{
    push_entry(alloc, text, entry)?;
    push_end(alloc, text)
}

fn push_entry(alloc: Global, text: &mut Vec<u8>, entry: u32) -> Result<(), AllocError>
    ensures { OnOk result (text.new.items ≡ text.old.items ++ line_of (entry_record entry)) }
{
    let bytes = entry.to_be_bytes();
    push_other(alloc, text, kind::START_LINEAR_ADDRESS, &bytes)
}

fn push_end(alloc: Global, text: &mut Vec<u8>) -> Result<(), AllocError>
    ensures { OnOk result (text.new.items ≡ text.old.items ++ line_of end_record) }
{
    push_other(alloc, text, kind::END_OF_FILE, &[])
}

/// The number of records of a text that `write_hex` gave: each ends in a newline.
pub fn record_count(text: &[u8]) -> usize
    ensures { result ≡ count_by is_newline text.now }
{
    text.iter().filter(|byte| **byte == b'\n').count()
}
