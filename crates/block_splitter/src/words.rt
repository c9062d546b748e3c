//! Words that are added to a list.

ghost use Rattle.std.specs.Prelude.{◌≡◌, ◌∷◌, [], ◌≤◌, nat_lt, true, false, length, map, All, IfOk};
ghost use Rattle.std.specs.List.Sorted.{IsStrictlyIncreasing, IsPartitionPoint};
ghost use Rattle.rv32im.specs.{Table.{IsInRange}, Sequences.{MeanAll}};
ghost use Rattle.block_splitter.specs.{Copies.{word_of_unit, address_in}, Copying.{Appends}};

use code_blocks::Unit;
use rv32im::{Instr, encode};
use std::alloc::AllocError;

/// Adds one word.
pub(crate) fn push_word(words: &mut Vec<u32>, word: u32) -> Result<(), AllocError>
    ensures { IfOk result (λ _. Appends words.old.items words.new.items (λ ws. ws ≡ word ∷ [])) }
{
    words.push(word)?;
    Ok(())
}

/// Adds the words that mean these instructions.
pub(crate) fn push_code(words: &mut Vec<u32>, code: &[Instr]) -> Result<(), AllocError>
    requires { All IsInRange code.now }
    ensures { IfOk result (λ _. Appends words.old.items words.new.items (λ ws. MeanAll ws code.now)) }
{
    for instr in code {
        words.push(encode(instr))?;
    }
    Ok(())
}

/// The word of a unit: at a site the one that the list has for it, else its own.
///
/// The time grows with the logarithm of the number of sites.
pub(crate) fn word_of_unit(sites: &[(u32, u32)], unit: &Unit) -> u32
    requires { IsStrictlyIncreasing (map address_in sites.now) }
    ensures { result ≡ word_of_unit sites.now unit.now }
{
    let place = sites_before(sites, unit.at);
    if place == sites.len() {
        return unit.raw;
    }
    let (at, word) = sites[place];
    if at == unit.at { word } else { unit.raw }
}

/// How many sites stand before an address.
fn sites_before(sites: &[(u32, u32)], address: u32) -> usize
    requires { IsStrictlyIncreasing (map address_in sites.now) }
    ensures bound { result ≤ length sites.now }
    ensures point { IsPartitionPoint (λ p. nat_lt (address_in p) address ≡ true) (λ p. nat_lt (address_in p) address ≡ false) sites.now result }
{
    sites.partition_point(|site| site.0 < address)
}
