ghost use Rattle.std.specs.Prelude.{◌≡◌, ℕ, ◌+◌, ◌^◌, ◌<◌, true, if◌then◌else◌, MatchOption};
ghost use Rattle.std.specs.List.Sorted.{IsStrictlyIncreasing};
ghost use Rattle.rv32im.specs.{Fields.{rd_of}, Table.{Means, MeansNothing}};
ghost use Rattle.elf_reader.specs.File.{plain_view};
ghost use Rattle.loaded_file.specs.{Code.{image_word}, Read.{IsRead}};
ghost use Rattle.code_blocks.specs.{Words.{links}, Leaders.{is_call_pair}, Early.{has}, AllLeaders.{IsLeaders}, Ends.{jal_word_end, jalr_word_end, word_end, pair_end, jump_end}, Steps.{end_behind}};

use crate::ends::End;
use crate::lists::Leaders;
use crate::meanings::{has_meaning, is_branch, is_ebreak, is_jal, is_jalr, links};
use crate::parts::Unit;
use crate::targets::{branch_target, jal_target, pair_target};
use loaded_file::{LoadedFile, word_of_code};
use rv32im::{decode, rd};

/// The unit that `word` begins, which stands at `address`.
pub(crate) fn unit_at(leaders: &Leaders, address: u32, word: u32) -> Unit
    requires { IsStrictlyIncreasing leaders.now.pairs.items }
    ensures at { result.at ≡ address }
    ensures words { result.words ≡ (if has leaders.now.pairs.items address then 2 else 1) }
    ensures raw { result.raw ≡ word }
    ensures instr { MatchOption result.instr (MeansNothing word) (Means word) }
{
    let is_pair = leaders.is_pair(address);
    Unit {
        at: address,
        words: if is_pair { 2 } else { 1 },
        instr: decode(word),
        raw: word,
    }
}

/// How a block ends behind its unit at `address`, if it does: by the unit, of which `word` is the first word,
/// or where the next block begins.
pub(crate) fn end_behind(
    file: &LoadedFile,
    leaders: &Leaders,
    address: u32,
    word: u32,
) -> Option<End>
    requires read { IsRead file.now.view.now }
    requires leaders { IsLeaders (plain_view file.now.view.now) leaders.now }
    requires word { word ≡ image_word (plain_view file.now.view.now) address }
    requires fits { address + 4 < 2 ^ 32 }
    ensures { result ≡ end_behind (plain_view file.now.view.now) address }
{
    if !has_meaning(word) {
        return Some(End::Stop);
    }
    match jump_end(file, leaders, address, word) {
        Some(end) => Some(end),
        None => fall_end(leaders, address),
    }
}

/// A block falls to the next address where a block begins there.
fn fall_end(leaders: &Leaders, address: u32) -> Option<End>
    requires ascending { IsStrictlyIncreasing leaders.now.all.items }
    requires fits { address + 4 < 2 ^ 32 }
    ensures { result ≡ (if has leaders.now.all.items (address + 4) then Some (End.Fall (address + 4)) else None) }
{
    let next = address + 4;
    if leaders.is_leader(next) {
        Some(End::Fall { next })
    } else {
        None
    }
}

/// The end that the unit at `address` makes, if it is a jump or EBREAK.
fn jump_end(file: &LoadedFile, leaders: &Leaders, address: u32, word: u32) -> Option<End>
    requires read { IsRead file.now.view.now }
    requires leaders { IsLeaders (plain_view file.now.view.now) leaders.now }
    requires word { word ≡ image_word (plain_view file.now.view.now) address }
    requires fits { address + 4 < 2 ^ 32 }
    ensures { result ≡ jump_end (plain_view file.now.view.now) address }
{
    if leaders.is_pair(address) {
        Some(pair_end(file, address, word))
    } else {
        word_end(address, word)
    }
}

/// The end that a unit of one word at `address` makes, if it is a jump or EBREAK.
fn word_end(address: u32, word: u32) -> Option<End>
    requires { address + 4 < 2 ^ 32 }
    ensures { result ≡ word_end address word }
{
    if is_branch(word) {
        Some(End::Branch {
            target: branch_target(address, word),
            next: address + 4,
        })
    } else if is_jal(word) {
        Some(jal_end(address, word))
    } else if is_jalr(word) {
        Some(jalr_end(address, word))
    } else if is_ebreak(word) {
        Some(End::Stop)
    } else {
        None
    }
}

/// The end of a call pair at `address`.
fn pair_end(file: &LoadedFile, address: u32, word: u32) -> End
    requires read { IsRead file.now.view.now }
    requires pair { is_call_pair (plain_view file.now.view.now) address ≡ true }
    requires word { word ≡ image_word (plain_view file.now.view.now) address }
    ensures { result ≡ pair_end (plain_view file.now.view.now) address }
{
    let second = word_of_code(file, address + 4);
    let target = pair_target(address, word, second);
    call_or(second, target, address + 8, End::Tail { target })
}

/// The end of a JAL at `address`.
fn jal_end(address: u32, word: u32) -> End
    requires { address + 4 < 2 ^ 32 }
    ensures { result ≡ jal_word_end address word }
{
    let target = jal_target(address, word);
    call_or(word, target, address + 4, End::Jump { target })
}

/// A call by a jump that links, and `plain` by one that does not.
fn call_or(jump: u32, target: u32, back: u32, plain: End) -> End
    ensures { result ≡ (if links jump then End.Call target back (rd_of jump) else plain) }
{
    if links(jump) {
        End::Call {
            target,
            back,
            link: rd(jump),
        }
    } else {
        plain
    }
}

/// The end of a JALR at `address` that is of no pair.
fn jalr_end(address: u32, word: u32) -> End
    requires { address + 4 < 2 ^ 32 }
    ensures { result ≡ jalr_word_end address word }
{
    let back = if links(word) { Some(address + 4) } else { None };
    End::Indirect { back }
}
