ghost use Rattle.std.specs.Prelude.{◌≡◌, ◌<◌, not, ◌&&◌, length};
ghost use Rattle.list_checks.specs.Tests.{any_below};
ghost use Rattle.elf_reader.specs.File.{plain_view};
ghost use Rattle.loaded_file.specs.{Records.{reloc_at}, Read.{IsRead}};
ghost use Rattle.object_graph.specs.{Rewritable.{is_upper_of, is_rewritable_high, is_rewritable_low, is_rewritable_pair, distance, is_call_at, is_unpaired}, Lists.{is_upper_pair, AreListsOf}};

use crate::fields::{AUIPC, LUI, has_upper, takes_low};
use crate::listing::{KEYS, change_start};
use crate::lists::RelocationLists;
use elf_reader::{
    ElfView, R_RISCV_HI20, R_RISCV_LO12_I, R_RISCV_LO12_S, R_RISCV_PCREL_HI20, Reloc,
};
use list_checks::{has, has_inside};
use loaded_file::{LoadedFile, code_word, target};
use rv32im::hi20;

/// A relocation is of a LUI of the upper part of its target.
pub(crate) fn is_rewritable_high(file: &LoadedFile, reloc: &Reloc) -> bool
    requires read { IsRead file.now.view.now }
    ensures { result ≡ is_rewritable_high (plain_view file.now.view.now) reloc.now }
{
    is_upper_of(file, reloc, R_RISCV_HI20, LUI, target(file.view, reloc))
}

/// A relocation of this kind at a word of this opcode, which has the upper part of `address`.
fn is_upper_of(file: &LoadedFile, reloc: &Reloc, kind: u32, major: u32, address: u32) -> bool
    requires read { IsRead file.now.view.now }
    ensures { result ≡ is_upper_of (plain_view file.now.view.now) reloc.now kind major address }
{
    if reloc.kind != kind {
        return false;
    }
    match code_word(file, reloc.at) {
        Some(word) => has_upper(word, major, hi20(address)),
        None => false,
    }
}

/// A relocation is of an instruction that takes the low part of its target.
pub(crate) fn is_rewritable_low(file: &LoadedFile, reloc: &Reloc) -> bool
    requires read { IsRead file.now.view.now }
    ensures { result ≡ is_rewritable_low (plain_view file.now.view.now) reloc.now }
{
    if reloc.kind != R_RISCV_LO12_I && reloc.kind != R_RISCV_LO12_S {
        return false;
    }
    match code_word(file, reloc.at) {
        Some(word) => takes_low(word, reloc.kind, target(file.view, reloc)),
        None => false,
    }
}

/// Relocation `i` is of an AUIPC that begins no call, of the upper part of the distance to its target, and
/// all low parts that name it fit it.
pub(crate) fn is_rewritable_pair(file: &LoadedFile, lists: &RelocationLists, i: usize) -> bool
    requires read { IsRead file.now.view.now }
    requires lists { AreListsOf (plain_view file.now.view.now) lists.now }
    requires below { i < length file.now.view.now.relocs.items }
    ensures { result ≡ is_rewritable_pair (plain_view file.now.view.now) (reloc_at (plain_view file.now.view.now) i) }
{
    let reloc = &file.view.relocs[i];
    is_upper_pair(file, reloc) && stands_alone(file.view, lists, i)
}

/// A relocation is of an AUIPC of the upper part of the distance to its target.
fn is_upper_pair(file: &LoadedFile, reloc: &Reloc) -> bool
    requires read { IsRead file.now.view.now }
    ensures { result ≡ is_upper_pair (plain_view file.now.view.now) reloc.now }
{
    let far = distance(file.view, reloc);
    is_upper_of(file, reloc, R_RISCV_PCREL_HI20, AUIPC, far)
}

/// No call begins at relocation `i`, and all low parts that name its AUIPC fit it.
fn stands_alone(view: &ElfView, lists: &RelocationLists, i: usize) -> bool
    requires lists { AreListsOf (plain_view view.now) lists.now }
    requires below { i < length view.now.relocs.items }
    ensures { result ≡ not (any_below (is_call_at (plain_view view.now) (reloc_at (plain_view view.now) i).at) (length (plain_view view.now).relocs)) && not (any_below (is_unpaired (plain_view view.now) (reloc_at (plain_view view.now) i)) (length (plain_view view.now).relocs)) }
{
    !begins_call(view, lists, i) && !is_unpaired(view, lists, &view.relocs[i])
}

/// How far the target of a relocation lies from it: S + A - P.
fn distance(view: &ElfView, reloc: &Reloc) -> u32
    ensures { result ≡ distance (plain_view view.now) reloc.now }
{
    target(view, reloc).wrapping_sub(reloc.at)
}

/// A call begins where relocation `i` is.
fn begins_call(view: &ElfView, lists: &RelocationLists, i: usize) -> bool
    requires lists { AreListsOf (plain_view view.now) lists.now }
    requires below { i < length view.now.relocs.items }
    ensures { result ≡ any_below (is_call_at (plain_view view.now) (reloc_at (plain_view view.now) i).at) (length (plain_view view.now).relocs) }
{
    has(&lists.calls, change_start(view, i))
}

/// A low relocation that names the AUIPC of a relocation has another low part than its distance.
fn is_unpaired(view: &ElfView, lists: &RelocationLists, reloc: &Reloc) -> bool
    requires { AreListsOf (plain_view view.now) lists.now }
    ensures { result ≡ any_below (is_unpaired (plain_view view.now) reloc.now) (length (plain_view view.now).relocs) }
{
    let first = u64::from(reloc.at) * KEYS;
    let low = u64::from(distance(view, reloc) % 4096);
    has_inside(&lists.low_keys, first, low)
        || has_inside(&lists.low_keys, first + low + 1, KEYS - 1 - low)
}
