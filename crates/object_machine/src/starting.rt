ghost use Rattle.std.specs.Prelude.{◌≡◌, ℕ, ◌+◌, ◌≤◌, false, length, map, IfOk, OnOk};
ghost use Rattle.elf_reader.specs.{File.{plain_segment}, Image.{image_of}};
ghost use Rattle.rv32im.specs.Memory.{Memory};
ghost use Rattle.cell_values.specs.{Cells.{put_cells, parts_of}, declared.values.Cell.TheVariants.{Byte}, Stored.{cells_of}};
ghost use Rattle.object_machine.specs.{Start.{first_cell}, Starting.{AreShortSegments, AreShortWords, plain_cells}, Machine.{byte_cells}};

use cell_values::{Cell, CellStore, Val, split};
use elf_reader::Segment;
use object_graph::DataWord;
use std::alloc::{AllocError, Global};

/// The memory with which a program starts: the bytes of its segments, over which its words of data hold the
/// addresses that they mean.
pub(crate) fn first_memory(
    alloc: Global,
    segments: &[Segment],
    words: &[DataWord],
) -> Result<CellStore, AllocError>
    requires loadable { AreShortSegments (map plain_segment segments.now) }
    requires words { AreShortWords words.now }
    ensures { IfOk result (λ memory. cells_of memory ≡ first_cell (image_of (map plain_segment segments.now)) words.now) }
{
    let mut memory = CellStore::new(alloc);
    lay_segments(&mut memory, segments)?;
    lay_words(&mut memory, words)?;
    Ok(memory)
}

/// Puts the bytes of the segments at their addresses. Where several have a byte for an address, that of the
/// first counts, so it is put last.
fn lay_segments(memory: &mut CellStore, segments: &[Segment]) -> Result<(), AllocError>
    requires empty { cells_of memory.old ≡ (λ _. Byte 0) }
    requires loadable { AreShortSegments (map plain_segment segments.now) }
    ensures { OnOk result (cells_of memory.new ≡ plain_cells (image_of (map plain_segment segments.now))) }
{
    for k in (0..segments.len()).rev() {
        let segment = &segments[k];
        lay_bytes(memory, segment.vaddr, segment.bytes)?;
    }
    Ok(())
}

/// Puts bytes at the addresses from `at` on.
fn lay_bytes(memory: &mut CellStore, at: u32, bytes: &[u8]) -> Result<(), AllocError>
    requires { at + length bytes.now ≤ 4294967296 }
    ensures { OnOk result (cells_of memory.new ≡ put_cells (cells_of memory.old) at (byte_cells bytes.now)) }
{
    for (i, byte) in bytes.iter().enumerate() {
        memory.set(at + i as u32, Cell::Byte(*byte))?;
    }
    Ok(())
}

/// Puts the addresses that the words of data mean. Where several have a byte for an address, that of the first
/// counts, so it is put last.
fn lay_words(memory: &mut CellStore, words: &[DataWord]) -> Result<(), AllocError>
    requires { AreShortWords words.now }
    ensures { (image : Memory) → cells_of memory.old ≡ plain_cells image → OnOk result (cells_of memory.new ≡ first_cell image words.now) }
{
    for k in (0..words.len()).rev() {
        lay_word(memory, &words[k])?;
    }
    Ok(())
}

/// Puts the address that one means.
fn lay_word(memory: &mut CellStore, word: &DataWord) -> Result<(), AllocError>
    requires { word.now.at + 4 ≤ 4294967296 }
    ensures { OnOk result (cells_of memory.new ≡ put_cells (cells_of memory.old) word.now.at (parts_of false word.now.object word.now.offset)) }
{
    let cells = split(&Val::Addr {
        obj: word.object,
        off: word.offset,
    });
    memory.set_all(word.at, &cells)
}
