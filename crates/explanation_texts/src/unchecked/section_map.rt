use crate::unchecked::records::UncheckedFile;
use std::alloc::{AllocError, Global};
use std::collections::BTreeSet;

/// Which section has the byte at each address.
#[derive(Drop)]
pub struct SectionMap {
    /// The addresses from one on, up to the next range, and the first section with memory that has these bytes. By their
    /// first addresses, ascending. Of those that begin at one address the last counts.
    ranges: Vec<(u32, Option<u32>)>,
}

impl SectionMap {
    /// The map of a file's sections. It fails only where no memory was left.
    ///
    /// The time grows with n log n, where n is the number of sections.
    pub fn of(alloc: Global, file: &UncheckedFile) -> Result<SectionMap, AllocError> {
        let bounds = section_bounds(alloc, file)?;
        let mut open = BTreeSet::new(alloc);
        let mut ranges = Vec::new(alloc);
        for (address, section, is_start) in &bounds {
            if *is_start {
                open.insert(*section)?;
            } else {
                open.remove(section);
            }
            ranges.push((*address, open.first().copied()))?;
        }
        Ok(SectionMap { ranges })
    }

    /// The first section with memory that has the byte at an address, as `UncheckedFile::section_at`. The time grows with the
    /// logarithm of the number of sections.
    pub fn section_at(&self, address: u32) -> Option<u32> {
        let count = self.ranges.partition_point(|range| range.0 <= address);
        self.ranges.get(count.checked_sub(1)?)?.1
    }
}

/// The addresses from which on sections with memory have bytes, or have them no more, in order, with the section and whether it
/// begins. One that reaches past the last address goes on at address 0.
fn section_bounds(
    alloc: Global,
    file: &UncheckedFile,
) -> Result<Vec<(u32, u32, bool)>, AllocError> {
    let mut bounds = Vec::new(alloc);
    for k in 0..file.section_count() {
        let section = file.section(k);
        if section.is_allocated() && section.size != 0 {
            let end = section.addr.wrapping_add(section.size);
            if end != 0 && end < section.addr {
                bounds.push((0, k, true))?;
            }
            bounds.push((section.addr, k, true))?;
            bounds.push((end, k, false))?;
        }
    }
    bounds.sort_unstable_by_key(|bound| bound.0);
    Ok(bounds)
}
