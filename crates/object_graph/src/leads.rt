ghost use Rattle.std.specs.Prelude.{◌≡◌, ℕ, ◌<◌, ◌≤◌, length};
ghost use Rattle.elf_reader.specs.File.{plain_view};
ghost use Rattle.object_graph.specs.Gathered.{AreMovable, is_lead, leads_by};

use crate::meaning::meant_range;
use loaded_file::{ByteRange, LoadedFile, counts, target};

/// Where a relocation leads: into an object that may move, or to its end.
#[derive(Clone, Copy)]
pub(crate) struct Lead {
    /// The number of the object.
    pub(crate) object: u32,
    /// How many bytes behind the object's home.
    pub(crate) offset: u32,
}

/// Where relocation `i` leads, if it counts and leads into one of the ranges or to its end.
pub(crate) fn lead_of(file: &LoadedFile, ranges: &[ByteRange], i: usize) -> Option<Lead>
    requires movable { AreMovable (plain_view file.now.view.now) ranges.now }
    requires few { length ranges.now ≤ 4096 }
    requires below { i < length file.now.view.now.relocs.items }
    ensures { (k o : ℕ) → is_lead k o result ≡ leads_by (plain_view file.now.view.now) ranges.now k o i }
{
    let reloc = &file.view.relocs[i];
    if !counts(file, reloc) {
        return None;
    }
    let Some(place) = meant_range(file, ranges, i) else {
        return None;
    };
    let offset = target(file.view, reloc).wrapping_sub(ranges[place].home);
    if offset > ranges[place].size {
        return None;
    }
    Some(Lead {
        object: place as u32,
        offset,
    })
}
