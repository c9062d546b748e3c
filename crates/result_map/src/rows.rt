//! How the rows of a map are written.
ghost use Rattle.std.specs.Prelude.{◌≡◌, ◌++◌, ◌==◌, IfOk, OnOk, string_bytes};
ghost use Rattle.printed_lines.specs.ShowLines.{addressed_head};
ghost use Rattle.result_map.specs.MapText.{place_text, tail_text, short_row};

use printed_lines::address_text;
use relink_core::UnitAt;
use std::alloc::{AllocError, Global};

/// Whether two addresses are the same.
pub(crate) fn is_same(a: u32, b: u32) -> bool
    ensures { result ≡ (a == b) }
{
    a == b
}

/// How a row begins: what stands there, where, and in which region.
fn head_text(alloc: Global, word: &str, at: u32, region: u32) -> Result<String, AllocError>
    ensures { IfOk result (λ text. string_bytes text ≡ addressed_head word.now at region) }
{
    let at = address_text(alloc, at)?;
    format!(in alloc; "{word} {at} {region} ")
}

/// Adds that, and the home.
#[tactic(auto, unfolding(crate::specs::MapText::place_text))]
pub(crate) fn push_place(
    alloc: Global,
    text: &mut Vec<u8>,
    word: &str,
    place: UnitAt,
) -> Result<(), AllocError>
    ensures { OnOk result (text.new.items ≡ text.old.items ++ place_text word.now place) }
{
    let head = head_text(alloc, word, place.at, place.region)?;
    let home = address_text(alloc, place.home)?;
    text.extend_from_slice(head.as_bytes())?;
    text.extend_from_slice(home.as_bytes())?;
    Ok(())
}

/// Adds a number and a name.
pub(crate) fn push_tail(
    alloc: Global,
    text: &mut Vec<u8>,
    number: u32,
    name: &[u8],
) -> Result<(), AllocError>
    ensures { OnOk result (text.new.items ≡ text.old.items ++ tail_text number name.now) }
{
    let line = format!(in alloc; " {number} ")?;
    text.extend_from_slice(line.as_bytes())?;
    text.extend_from_slice(name)?;
    Ok(())
}

/// A row of a word and an address.
#[tactic(auto, unfolding(crate::specs::MapText::short_row))]
fn short_text(alloc: Global, word: &str, address: u128) -> Result<String, AllocError>
    ensures { IfOk result (λ text. string_bytes text ≡ short_row word.now address) }
{
    let at = address_text(alloc, (address % 4294967296) as u32)?;
    format!(in alloc; "{word} {at}\n")
}

/// Adds one.
pub(crate) fn push_short(
    alloc: Global,
    text: &mut Vec<u8>,
    address: u128,
    word: &str,
) -> Result<(), AllocError>
    ensures { OnOk result (text.new.items ≡ text.old.items ++ short_row word.now address) }
{
    let line = short_text(alloc, word, address)?;
    text.extend_from_slice(line.as_bytes())?;
    Ok(())
}
