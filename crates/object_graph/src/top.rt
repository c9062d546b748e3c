ghost use Rattle.std.specs.Prelude.{◌≡◌, ℕ, ◌&&◌, not, length, IfOk};
ghost use Rattle.list_checks.specs.Tests.{any_below};
ghost use Rattle.elf_reader.specs.File.{plain_view};
ghost use Rattle.loaded_file.specs.{Ranges.{is_range, is_overlapped}, ByteRanges.{has_byte_range_in, IsFilled}};
ghost use Rattle.object_graph.specs.{Marks.{all_rewritable}, Fixed.{aliases_into, is_movable}, Disjoint.{AreApart, IsDisjoint, mark_at, AddsRule, AreMarks}, Shares.{is_immovable, AreSharedWords}, Names.{AreListedNames}};

use crate::aliasing::{aliased_sections, mark_aliased};
use crate::naming::{listed_names, mark_named, mark_zeros};
use crate::range_marks::{no_marks, unmarked};
use crate::shared_words::{SharedWords, shared_words};
use crate::sharing::mark_shared;
use crate::soundness::mark_unrewritable;
use board_config::Board;
use loaded_file::{ByteRange, LoadedFile, object_ranges, overlapped};
use std::alloc::{AllocError, Global};
use std::collections::BTreeSet;

/// What is known of a program and a board, by which ranges are marked.
#[derive(Drop)]
struct Tables<'a> {
    /// Into which sections a relocation aliases.
    aliased: Vec<bool>,
    words: SharedWords,
    /// The names in the board's list.
    names: BTreeSet<&'a [u8]>,
}

/// The ranges of the objects that may move, ascending. `rewritable` are the marks
/// of the relocations of a rewritable kind. It fails only where no memory was left.
///
/// The time grows with n log n, where n is the number of symbols, of relocations and of names in the board's list.
pub fn movable_ranges(
    alloc: Global,
    file: &LoadedFile,
    board: &Board,
    rewritable: &[bool],
) -> Result<Vec<ByteRange>, AllocError>
    requires rewritable { rewritable.now ≡ all_rewritable (plain_view file.now.view.now) }
    ensures disjoint { IfOk result (λ ranges. IsDisjoint ranges.items) }
    ensures exact { IfOk result (λ ranges. (home n : ℕ) → has_byte_range_in ranges.items home n ≡ is_movable (plain_view file.now.view.now) board.now home n) }
    ensures filled { IfOk result (λ ranges. IsFilled ranges.items) }
{
    let disjoint = disjoint_ranges(alloc, file)?;
    let immovable = immovable_marks(alloc, file, board, rewritable, &disjoint)?;
    unmarked(alloc, &disjoint, &immovable)
}

/// The ranges of the objects that meet no other one.
fn disjoint_ranges(alloc: Global, file: &LoadedFile) -> Result<Vec<ByteRange>, AllocError>
    ensures disjoint { IfOk result (λ ranges. IsDisjoint ranges.items) }
    ensures exact { IfOk result (λ ranges. (home n : ℕ) → has_byte_range_in ranges.items home n ≡ (is_range (plain_view file.now.view.now) home n && not (is_overlapped (plain_view file.now.view.now) home n))) }
    ensures filled { IfOk result (λ ranges. IsFilled ranges.items) }
{
    let ranges = object_ranges(alloc, file)?;
    let overlaps = overlapped(alloc, &ranges)?;
    unmarked(alloc, &ranges, &overlaps)
}

/// Which of these ranges stay where they are, by a rule other than that they meet another one.
fn immovable_marks(
    alloc: Global,
    file: &LoadedFile,
    board: &Board,
    rewritable: &[bool],
    ranges: &[ByteRange],
) -> Result<Vec<bool>, AllocError>
    requires rewritable { rewritable.now ≡ all_rewritable (plain_view file.now.view.now) }
    requires ranges { AreApart ranges.now }
    ensures { IfOk result (λ immovable. AreMarks (is_immovable (plain_view file.now.view.now) board.now) ranges.now immovable.items) }
{
    let aliased = aliased_sections(alloc, file)?;
    let words = shared_words(alloc, file, rewritable)?;
    let names = listed_names(alloc, board)?;
    let tables = Tables {
        aliased,
        words,
        names,
    };
    let mut marks = no_marks(alloc, ranges.len())?;
    mark_immovable(&mut marks, file, board, rewritable, &tables, ranges);
    Ok(marks)
}

/// Marks them, by what is known of sections, words and names: in a section without content, by a name, beside an object into
/// which a relocation aliases, by a relocation that isn't rewritable, or by sites that share a word.
fn mark_immovable(
    marks: &mut [bool],
    file: &LoadedFile,
    board: &Board,
    rewritable: &[bool],
    tables: &Tables,
    ranges: &[ByteRange],
)
    requires rewritable { rewritable.now ≡ all_rewritable (plain_view file.now.view.now) }
    requires aliased { (s : ℕ) → mark_at tables.now.aliased.items s ≡ any_below (aliases_into (plain_view file.now.view.now) s) (length (plain_view file.now.view.now).relocs) }
    requires words { AreSharedWords (plain_view file.now.view.now) tables.now.words }
    requires names { AreListedNames board.now tables.now.names }
    requires ranges { AreApart ranges.now }
    requires len { length marks.old ≡ length ranges.now }
    ensures adds { AddsRule (is_immovable (plain_view file.now.view.now) board.now) ranges.now marks.old marks.new }
    ensures len { length marks.new ≡ length marks.old }
{
    mark_zeros(marks, file, board, ranges);
    mark_named(marks, file, &tables.names, ranges);
    mark_aliased(marks, file, &tables.aliased, ranges);
    mark_unrewritable(marks, file, rewritable, ranges);
    mark_shared(marks, file, rewritable, &tables.words, ranges);
}
