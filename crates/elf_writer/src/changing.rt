//! Changes of a file's bytes where they stand.
ghost use Rattle.std.specs.Prelude.{◌≡◌, ℕ, ◌+◌, ◌≤◌, ◌<◌, ◌∷◌, [], List, map, length, All};
ghost use Rattle.elf_reader.specs.File.{plain_symbol};
ghost use Rattle.elf_writer.specs.{Pieces.{half_bytes, word_bytes}, Changes.{Change, changed}, Parts.{patch_change, move_changes, moves_changes}, Conditions.{HasWordValue}, Fits.{PatchFits, MoveFits}};

use crate::parts::{Patch, SymbolMove};
use elf_reader::Symbol;

/// The number that stands in `st_shndx` of a symbol with an absolute value (`SHN_ABS`).
const SHN_ABS: u16 = 0xfff1;

/// Puts bytes in the place of those that stand from `place` on.
fn put_bytes(out: &mut [u8], place: usize, bytes: &[u8])
    requires { place + length bytes.now ≤ length out.old }
    ensures { out.new ≡ changed (record { place = place; content = bytes.now } ∷ []) 0 out.old }
{
    out[place..place + bytes.len()].copy_from_slice(bytes);
}

/// Puts a word, least byte first.
pub(crate) fn put_word(out: &mut [u8], place: usize, word: u32)
    requires { place + 4 ≤ length out.old }
    ensures { out.new ≡ changed (record { place = place; content = word_bytes word } ∷ []) 0 out.old }
{
    put_bytes(out, place, &word.to_le_bytes());
}

/// Puts a halfword, least byte first.
pub(crate) fn put_half(out: &mut [u8], place: usize, half: u16)
    requires { place + 2 ≤ length out.old }
    ensures { out.new ≡ changed (record { place = place; content = half_bytes half } ∷ []) 0 out.old }
{
    put_bytes(out, place, &half.to_le_bytes());
}

/// Puts the words of patches.
pub(crate) fn put_patches(out: &mut [u8], patches: &[Patch])
    requires { All (PatchFits (length out.old)) patches.now }
    ensures { out.new ≡ changed (map patch_change patches.now) 0 out.old }
{
    for patch in patches {
        put_word(out, patch.offset as usize, patch.word);
    }
}

/// Gives a symbol an absolute value.
fn put_move(out: &mut [u8], symbol: &Symbol, value: u32)
    requires { symbol.now.at + 16 ≤ length out.old }
    ensures word { value < 4294967296 }
    ensures new { out.new ≡ changed (record { place = symbol.now.at + 4; content = word_bytes value } ∷ record { place = symbol.now.at + 14; content = half_bytes 65521 } ∷ []) 0 out.old }
{
    let at = symbol.at as usize;
    put_word(out, at + 4, value);
    put_half(out, at + 14, SHN_ABS);
}

/// Gives moved symbols their values.
pub(crate) fn put_moves(out: &mut [u8], symbols: &[Symbol], moves: &[SymbolMove])
    requires { All (MoveFits (length out.old) (map plain_symbol symbols.now)) moves.now }
    ensures words { All HasWordValue moves.now }
    ensures new { out.new ≡ changed (moves_changes (map plain_symbol symbols.now) moves.now) 0 out.old }
{
    for change in moves {
        put_move(out, &symbols[change.symbol as usize], change.value);
    }
}
