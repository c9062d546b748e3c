use elf_reader::ElfView;
use explanation_texts::SectionMap;
use loaded_file::{ByteRange, LoadedFile, counts, object_ranges, symbol_value, target};
use object_graph::{Graph, is_alias};
use std::alloc::{AllocError, Global};

/// The objects of a section.
#[derive(Clone, Copy)]
pub(crate) struct SectionObjects {
    /// How many may not move.
    pub(crate) fixed: u64,
    /// A label that pins them.
    pub(crate) label: Option<LabelUse>,
}

const NO_OBJECTS: SectionObjects = SectionObjects {
    fixed: 0,
    label: None,
};

/// A label by which a relocation leads into an object.
#[derive(Clone, Copy)]
pub(crate) struct LabelUse {
    /// The number of its symbol.
    pub(crate) symbol: u32,
    /// The number of the section that the relocation changes.
    pub(crate) changed: u32,
    /// The home of the object.
    pub(crate) home: u32,
}

/// The objects of a file.
#[derive(Drop)]
pub(crate) struct ObjectCensus {
    /// How many there are.
    pub(crate) total: u64,
    /// Those of each section.
    pub(crate) sections: Vec<SectionObjects>,
}

/// Counts the objects of a file, whose sections a map has, and finds for each section a label that pins its objects. It fails
/// only where no memory was left.
///
/// The time grows with n log n, where n is the number of sections, symbols and relocations, and with the number of
/// sections times that of segments.
pub(crate) fn census(
    alloc: Global,
    view: &ElfView,
    graph: &Graph,
    map: &SectionMap,
) -> Result<ObjectCensus, AllocError> {
    let file = LoadedFile::of(alloc, view)?;
    let ranges = object_ranges(alloc, &file)?;
    let mut sections = vec![in alloc; NO_OBJECTS; view.sections.len()]?;
    for range in &ranges {
        if is_movable(graph, range) {
            continue;
        }
        if let Some(section) = section_of(&mut sections, map, range.home) {
            section.fixed = section.fixed.saturating_add(1);
        }
    }
    note_labels(&mut sections, map, &file, &ranges);
    Ok(ObjectCensus {
        total: ranges.len() as u64,
        sections,
    })
}

fn note_labels(
    sections: &mut [SectionObjects],
    map: &SectionMap,
    file: &LoadedFile,
    ranges: &[ByteRange],
) {
    for k in 0..file.view.relocs.len() {
        let Some(label) = label_of(file, ranges, k) else {
            continue;
        };
        if let Some(section) = section_of(sections, map, label.home) {
            section.label = Some(section.label.unwrap_or(label));
        }
    }
}

/// The entry of the section that has the byte at an address.
fn section_of<'a>(
    sections: &'a mut [SectionObjects],
    map: &SectionMap,
    address: u32,
) -> Option<&'a mut SectionObjects> {
    sections.get_mut(map.section_at(address)? as usize)
}

/// Whether a range is that of an object that may move.
fn is_movable(graph: &Graph, range: &ByteRange) -> bool {
    let count = graph
        .objects
        .partition_point(|object| object.home < range.home);
    match graph.objects.get(count) {
        Some(object) => object.home == range.home && object.size == range.size,
        None => false,
    }
}

/// The label by which relocation `k` leads into an object, if it does.
fn label_of(file: &LoadedFile, ranges: &[ByteRange], k: usize) -> Option<LabelUse> {
    let reloc = file.view.relocs.get(k)?;
    let number = reloc.symbol as usize;
    if !counts(file, reloc) || !is_alias(file, number) {
        return None;
    }
    let value = symbol_value(file.view, number);
    let home = match object_with(ranges, value) {
        Some(home) => home,
        None => object_with(ranges, target(file.view, reloc))?,
    };
    Some(LabelUse {
        symbol: reloc.symbol,
        changed: reloc.section,
        home,
    })
}

/// The home of an object that has the byte at an address.
fn object_with(ranges: &[ByteRange], address: u32) -> Option<u32> {
    let count = ranges.partition_point(|range| range.home <= address);
    let range = ranges.get(count.checked_sub(1)?)?;
    if address.wrapping_sub(range.home) < range.size {
        Some(range.home)
    } else {
        None
    }
}
