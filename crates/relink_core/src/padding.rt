ghost use Rattle.std.specs.Prelude.{◌≡◌, ℕ, ◌<◌, ◌++◌, ◌∷◌, [], map, length, IfOk, OnOk};
ghost use Rattle.std.specs.List.{filter};
ghost use Rattle.std.specs.List.Sorted.{IsStrictlyIncreasing};
ghost use Rattle.code_blocks.specs.Early.{has};
ghost use Rattle.block_splitter.specs.Copies.{Reaches};
ghost use Rattle.relink_core.specs.Padding.{home_of, ReachAll, is_unpadded, IsPad, ArePads, ArePadded};

use code_blocks::has_address;
use patch_code::Stub;
use rv32im::{encode, jump};
use std::alloc::{AllocError, Global};

/// Words at addresses, with pads: those at which no pad stands, and behind them a jump to each stub, which stands at
/// `stub_at`, from the stub's home. It fails only where no memory was left.
///
/// The time grows with n log m, where n is the number of words, and m that of stubs.
pub fn padded_words(
    alloc: Global,
    words: &[(u32, u32)],
    stubs: &[Stub],
    stub_at: &[u32],
) -> Result<Vec<(u32, u32)>, AllocError>
    requires ascending { IsStrictlyIncreasing (map home_of stubs.now) }
    requires many { length stub_at.now ≡ length stubs.now }
    requires reach { ReachAll (map home_of stubs.now) stub_at.now }
    ensures { IfOk result (λ padded. ArePadded words.now (map home_of stubs.now) stub_at.now padded.items) }
{
    let homes = homes(alloc, stubs)?;
    let mut padded = unpadded(alloc, words, &homes)?;
    let pads = pads(alloc, &homes, stub_at)?;
    padded.extend_from_slice(&pads)?;
    Ok(padded)
}

/// The homes of stubs.
fn homes(alloc: Global, stubs: &[Stub]) -> Result<Vec<u32>, AllocError>
    ensures { IfOk result (λ homes. homes.items ≡ map home_of stubs.now) }
{
    let mut homes = Vec::new(alloc);
    for stub in stubs {
        homes.push(stub.home)?;
    }
    Ok(homes)
}

/// The words at which no pad stands.
fn unpadded(
    alloc: Global,
    words: &[(u32, u32)],
    homes: &[u32],
) -> Result<Vec<(u32, u32)>, AllocError>
    requires { IsStrictlyIncreasing homes.now }
    ensures { IfOk result (λ kept. kept.items ≡ filter (is_unpadded homes.now) words.now) }
{
    let mut kept = Vec::new(alloc);
    for word in words {
        push_unpadded(&mut kept, word, homes)?;
    }
    Ok(kept)
}

/// Adds a word, if no pad stands at its address.
fn push_unpadded(
    kept: &mut Vec<(u32, u32)>,
    word: &(u32, u32),
    homes: &[u32],
) -> Result<(), AllocError>
    requires { IsStrictlyIncreasing homes.now }
    ensures { OnOk result (kept.new.items ≡ kept.old.items ++ filter (is_unpadded homes.now) (word.now ∷ [])) }
{
    if !has_address(homes, word.0) {
        kept.push(*word)?;
    }
    Ok(())
}

/// The pads at some homes: jumps to the stubs there.
fn pads(alloc: Global, homes: &[u32], stub_at: &[u32]) -> Result<Vec<(u32, u32)>, AllocError>
    requires many { length stub_at.now ≡ length homes.now }
    requires reach { ReachAll homes.now stub_at.now }
    ensures { IfOk result (λ pads. ArePads homes.now stub_at.now pads.items) }
{
    let mut pads = Vec::new(alloc);
    for k in 0..homes.len() {
        pads.push(pad(homes[k], stub_at[k]))?;
    }
    Ok(pads)
}

/// A jump from an address to another, as the word that stands there.
fn pad(home: u32, to: u32) -> (u32, u32)
    requires { Reaches home to }
    ensures { IsPad home to result }
{
    (home, encode(&jump(home, to)))
}
