//! Tables of what is found in a file before its code is followed.
ghost use Rattle.std.specs.Prelude.{◌≡◌};
ghost use Rattle.elf_reader.specs.File.{plain_view};
ghost use Rattle.loaded_file.specs.{Read.{IsRead}, ByteRanges.{IsFilled}};
ghost use Rattle.object_graph.specs.Disjoint.{IsDisjoint};

use crate::listing::Listing;
use anyhow::Result;
use board_config::Board;
use code_blocks::{early_leaders, leaders};
use elf_reader::{ElfView, Reloc};
use loaded_file::{ByteRange, LoadedFile, is_code_range, object_ranges, overlapped};
use object_graph::{meant_range, movable_ranges, rewritable_kinds};

/// A line for each section that is loaded, and whether it is a code range.
pub(crate) fn list_sections(listing: &mut Listing, view: &ElfView) -> Result<()> {
    let file = LoadedFile::of(listing.alloc(), view)?;
    listing.number_line("sections ", view.sections.len() as u64);
    for k in 0..view.sections.len() {
        if is_code_range(&file, k) {
            list_section(listing, k as u64, " code");
        } else if file.is_loaded(k) {
            list_section(listing, k as u64, " data");
        }
    }
    Ok(())
}

fn list_section(listing: &mut Listing, number: u64, how: &str) {
    listing.number("section ", number);
    listing.line(how);
}

/// A line for each range of objects, and whether it shares a byte with another.
pub(crate) fn list_ranges(listing: &mut Listing, view: &ElfView) -> Result<()> {
    let file = LoadedFile::of(listing.alloc(), view)?;
    let ranges = object_ranges(listing.alloc(), &file)?;
    let shared = overlapped(listing.alloc(), &ranges)?;
    for (range, shared) in ranges.iter().zip(&shared) {
        list_range(listing, range);
        let how = if *shared { " shared" } else { " alone" };
        listing.line(how);
    }
    Ok(())
}

/// The start of a line with where a range begins and how many bytes it has.
fn list_range(listing: &mut Listing, range: &ByteRange) {
    listing.address("range ", range.home);
    listing.number(" ", u64::from(range.size));
}

/// A line for each relocation, and whether it is rewritable.
pub(crate) fn list_relocations(listing: &mut Listing, view: &ElfView) -> Result<()>
    requires { IsRead view.now }
{
    let file = LoadedFile::of(listing.alloc(), view)?;
    let sound = rewritable_kinds(listing.alloc(), &file)?;
    for (reloc, sound) in view.relocs.iter().zip(&sound) {
        list_relocation(listing, reloc, *sound);
    }
    Ok(())
}

fn list_relocation(listing: &mut Listing, reloc: &Reloc, sound: bool) {
    listing.address("relocation ", reloc.at);
    listing.number(" ", u64::from(reloc.kind));
    let how = if sound {
        " rewritable"
    } else {
        " unrewritable"
    };
    listing.line(how);
}

/// A line for each range that may move, and one for each relocation that means one of them.
pub(crate) fn list_movable(listing: &mut Listing, view: &ElfView, board: &Board) -> Result<()>
    requires { IsRead view.now }
{
    let file = LoadedFile::of(listing.alloc(), view)?;
    let sound = rewritable_kinds(listing.alloc(), &file)?;
    let ranges = movable_ranges(listing.alloc(), &file, board, &sound)?;
    for (k, range) in ranges.iter().enumerate() {
        list_movable_range(listing, k as u64, range);
    }
    list_meanings(listing, &file, &ranges);
    Ok(())
}

fn list_movable_range(listing: &mut Listing, number: u64, range: &ByteRange) {
    listing.number("movable ", number);
    listing.address(" ", range.home);
    listing.number_line(" ", u64::from(range.size));
}

/// A line for each relocation that means one of the ranges.
fn list_meanings(listing: &mut Listing, file: &LoadedFile, ranges: &[ByteRange])
    requires disjoint { IsDisjoint ranges.now }
    requires filled { IsFilled ranges.now }
{
    for i in 0..file.view.relocs.len() {
        if let Some(k) = meant_range(file, ranges, i) {
            listing.number("relocation ", i as u64);
            listing.number_line(" means ", k as u64);
        }
    }
}

/// The leaders that the words of the code make, all leaders, the indirect ones, and the call pairs.
pub(crate) fn list_leaders(listing: &mut Listing, view: &ElfView) -> Result<()>
    requires { IsRead view.now }
{
    let file = LoadedFile::of(listing.alloc(), view)?;
    let early = early_leaders(listing.alloc(), &file)?;
    let found = leaders(listing.alloc(), &file)?;
    listing.text("early");
    listing.addresses(&early);
    listing.text("all");
    listing.addresses(&found.all);
    listing.text("indirect");
    listing.addresses(&found.indirect);
    listing.text("pairs");
    listing.addresses(&found.pairs);
    Ok(())
}
