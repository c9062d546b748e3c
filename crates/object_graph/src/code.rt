ghost use Rattle.std.specs.Prelude.{◌≡◌, ◌<◌, ◌==◌, ◌&&◌, length, IfOk};
ghost use Rattle.elf_reader.specs.{Sections.{bit_of}, File.{plain_view, plain_section}};
ghost use Rattle.loaded_file.specs.Code.{is_code_range};
ghost use Rattle.object_graph.specs.CodeRanges.{section_range, code_ranges_of};

use board_config::Range;
use elf_reader::Section;
use loaded_file::{LoadedFile, is_code_range};
use std::alloc::{AllocError, Global};

/// The addresses of the code of a program, a range for each executable section with content that is loaded, in
/// the order of the sections. A section of size 0 gives an empty range. It fails only where no memory was left.
pub fn code_ranges(alloc: Global, file: &LoadedFile) -> Result<Vec<Range>, AllocError>
    ensures { IfOk result (λ ranges. ranges.items ≡ code_ranges_of (plain_view file.now.view.now)) }
{
    let mut ranges = Vec::new(alloc);
    for k in 0..file.view.sections.len() {
        if is_code_range(file, k) {
            ranges.push(range_of(&file.view.sections[k]))?;
        }
    }
    Ok(ranges)
}

/// The addresses of a section.
pub(crate) fn range_of(section: &Section) -> Range
    ensures { result ≡ section_range (plain_section section.now) }
{
    Range {
        base: section.addr,
        size: section.size,
    }
}
