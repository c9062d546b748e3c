ghost use Rattle.std.specs.Prelude.{◌≡◌, map, OnOk, IfOk};
ghost use Rattle.rv32im.specs.Memory.{zeros};
ghost use Rattle.elf_reader.specs.{File.{plain_segment}, Image.{image_of}, Loadable.{AreLoadable}};
ghost use Rattle.board_config.specs.Board.{mapped_ranges};

use board_config::{Board, Range};
use elf_reader::Segment;
use paged_store::ByteStore;
use std::alloc::{AllocError, Global};

/// Puts the bytes of the segments at their addresses. Where several have a byte for an address,
/// that of the first counts, so it is put last.
pub fn lay_segments<S: ByteStore>(store: &mut S, segments: &[Segment]) -> Result<(), AllocError>
    requires empty { S.byte_at store.old ≡ zeros }
    requires loadable { AreLoadable (map plain_segment segments.now) }
    ensures { OnOk result (S.byte_at store.new ≡ image_of (map plain_segment segments.now)) }
{
    for k in (0..segments.len()).rev() {
        let segment = &segments[k];
        store.set_bytes(segment.vaddr, segment.bytes)?;
    }
    Ok(())
}

/// The mapped memory of a board.
pub fn mapped(alloc: Global, board: &Board) -> Result<Vec<Range>, AllocError>
    ensures { IfOk result (λ map. map.items ≡ mapped_ranges board.now) }
{
    let mut map = vec![in alloc; board.main, board.spm, board.patch]?;
    map.extend_from_slice(&board.areas)?;
    Ok(map)
}
