// Call pairs: an AUIPC and the JALR behind it that are one call (RISC-V psABI, "Procedure Calls").
ghost use Rattle.std.specs.Prelude.{◌≡◌, ℕ, ◌+◌, ◌^◌, ◌<◌, ◌==◌, true, false, not, ◌&&◌, ◌||◌, length, IfOk, MatchOption, OnOk};
ghost use Rattle.list_checks.specs.Tests.{any_below};
ghost use Rattle.elf_reader.specs.File.{plain_view};
ghost use Rattle.loaded_file.specs.{Code.{holds_code, is_code_word, image_word}, Records.{is_call_kind, counts}, Read.{IsRead}};
ghost use Rattle.code_blocks.specs.{Words.{pair_target}, Leaders.{is_early, calls, is_call_by, is_call_pair}, Pairs.{AreThose, is_barred, fits_pair, are_code_words, may_be_pair, makes_pair}, Early.{has}};

use crate::meanings::{is_auipc, is_jalr, links};
use crate::search::{arrange, has_address};
use crate::targets::pair_target;
use elf_reader::Reloc;
use loaded_file::{LoadedFile, code_word, counts, is_code_word, target};
use rv32im::{rd, rs1};
use std::alloc::{AllocError, Global};

/// Where the call pairs begin, in ascending order and each once. `early` are the leaders by the rules that
/// rest on no call pair. It fails only where no memory was left.
pub(crate) fn call_pairs(
    alloc: Global,
    file: &LoadedFile,
    early: &[u32],
) -> Result<Vec<u32>, AllocError>
    requires early { (a : ℕ) → has early.now a ≡ is_early (plain_view file.now.view.now) a }
    requires read { IsRead file.now.view.now }
    ensures { IfOk result (λ pairs. AreThose (is_call_pair (plain_view file.now.view.now)) pairs.items) }
{
    let barred = barred(alloc, file, early)?;
    let mut pairs = Vec::new(alloc);
    add_pairs(&mut pairs, file, &barred)?;
    arrange(&mut pairs);
    Ok(pairs)
}

/// Where no JALR of a pair stands: on early leaders, and where relocations of calls lead to.
fn barred(alloc: Global, file: &LoadedFile, early: &[u32]) -> Result<Vec<u32>, AllocError>
    requires early { (a : ℕ) → has early.now a ≡ is_early (plain_view file.now.view.now) a }
    ensures { IfOk result (λ barred. AreThose (is_barred (plain_view file.now.view.now)) barred.items) }
{
    let mut barred = early.to_vec(alloc)?;
    add_call_targets(&mut barred, file)?;
    arrange(&mut barred);
    Ok(barred)
}

fn add_call_targets(addresses: &mut Vec<u32>, file: &LoadedFile) -> Result<(), AllocError>
    ensures { OnOk result ((a : ℕ) → has addresses.new.items a ≡ has addresses.old.items a || any_below (calls (plain_view file.now.view.now) a) (length (plain_view file.now.view.now).relocs)) }
{
    for i in 0..file.view.relocs.len() {
        add_call_target(addresses, file, i)?;
    }
    Ok(())
}

/// Adds where relocation `i` leads to, if it is of a call.
fn add_call_target(addresses: &mut Vec<u32>, file: &LoadedFile, i: usize) -> Result<(), AllocError>
    requires below { i < length file.now.view.now.relocs.items }
    ensures { OnOk result ((a : ℕ) → has addresses.new.items a ≡ has addresses.old.items a || calls (plain_view file.now.view.now) a i) }
{
    let reloc = &file.view.relocs[i];
    if !is_call(file, reloc) {
        return Ok(());
    }
    addresses.push(target(file.view, reloc))?;
    Ok(())
}

/// A relocation counts, and is CALL or CALL_PLT (RISC-V psABI, "Relocations").
fn is_call(file: &LoadedFile, reloc: &Reloc) -> bool
    ensures { result ≡ counts (plain_view file.now.view.now) reloc.now && is_call_kind reloc.now.kind }
{
    counts(file, reloc) && matches!(reloc.kind, 18 | 19)
}

/// Adds where relocation `i` stands, if it makes the words there a pair.
fn add_pair(
    pairs: &mut Vec<u32>,
    barred: &[u32],
    file: &LoadedFile,
    i: usize,
) -> Result<(), AllocError>
    requires read { IsRead file.now.view.now }
    requires barred { AreThose (is_barred (plain_view file.now.view.now)) barred.now }
    requires below { i < length file.now.view.now.relocs.items }
    ensures { OnOk result ((p : ℕ) → has pairs.new.items p ≡ has pairs.old.items p || may_be_pair (plain_view file.now.view.now) p && is_call_by (plain_view file.now.view.now) p i) }
{
    let reloc = &file.view.relocs[i];
    if !makes_pair(file, barred, reloc) {
        return Ok(());
    }
    pairs.push(reloc.at)?;
    Ok(())
}

fn add_pairs(pairs: &mut Vec<u32>, file: &LoadedFile, barred: &[u32]) -> Result<(), AllocError>
    requires read { IsRead file.now.view.now }
    requires barred { AreThose (is_barred (plain_view file.now.view.now)) barred.now }
    ensures { OnOk result ((p : ℕ) → has pairs.new.items p ≡ has pairs.old.items p || may_be_pair (plain_view file.now.view.now) p && any_below (is_call_by (plain_view file.now.view.now) p) (length (plain_view file.now.view.now).relocs)) }
{
    for i in 0..file.view.relocs.len() {
        add_pair(pairs, barred, file, i)?;
    }
    Ok(())
}

/// A relocation is of a call, and the words where it stands are a pair to where it leads.
fn makes_pair(file: &LoadedFile, barred: &[u32], reloc: &Reloc) -> bool
    requires read { IsRead file.now.view.now }
    requires barred { AreThose (is_barred (plain_view file.now.view.now)) barred.now }
    ensures { result ≡ makes_pair (plain_view file.now.view.now) reloc.now }
{
    is_call(file, reloc) && is_pair_to(file, barred, reloc.at, target(file.view, reloc))
}

/// The words at `at` and behind it may be a pair to `to`.
fn is_pair_to(file: &LoadedFile, barred: &[u32], at: u32, to: u32) -> bool
    requires read { IsRead file.now.view.now }
    requires barred { AreThose (is_barred (plain_view file.now.view.now)) barred.now }
    ensures { result ≡ may_be_pair (plain_view file.now.view.now) at && (pair_target (plain_view file.now.view.now) at == to) }
{
    match pair_words(file, at) {
        Some((first, second)) => {
            fits_pair(first, second)
                && goes_unbarred(file, barred, at + 4, pair_target(at, first, second), to)
        }
        None => false,
    }
}

/// A pair that goes to `target`, and whose JALR stands at `second`, goes to `to`, which is code, and nothing bars it.
fn goes_unbarred(file: &LoadedFile, barred: &[u32], second: u32, target: u32, to: u32) -> bool
    requires { AreThose (is_barred (plain_view file.now.view.now)) barred.now }
    ensures { result ≡ is_code_word (plain_view file.now.view.now) target && not (is_barred (plain_view file.now.view.now) second) && (target == to) }
{
    is_code_word(file, target) && !has_address(barred, second) && target == to
}

/// `first` is an AUIPC, and `second` a JALR that uses its register, and writes that or x0.
fn fits_pair(first: u32, second: u32) -> bool
    ensures { result ≡ fits_pair first second }
{
    is_auipc(first)
        && is_jalr(second)
        && links(first)
        && rs1(second) == rd(first)
        && (rd(second) == rd(first) || rd(second) == 0)
}

/// The words at `at` and behind it, where both are code.
pub(crate) fn pair_words(file: &LoadedFile, at: u32) -> Option<(u32, u32)>
    requires read { IsRead file.now.view.now }
    ensures words { MatchOption result (are_code_words (plain_view file.now.view.now) at ≡ false) (λ words. (are_code_words (plain_view file.now.view.now) at ≡ true) × (words.0 ≡ image_word (plain_view file.now.view.now) at) × (words.1 ≡ image_word (plain_view file.now.view.now) (at + 4)) × (at + 8 < 2 ^ 32)) }
{
    let first = code_word(file, at)?;
    let second = code_word(file, at + 4)?;
    Some((first, second))
}
