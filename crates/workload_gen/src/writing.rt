//! Numbers and padded bytes at the end of a file that is being written.
ghost use Rattle.std.specs.Prelude.{◌≡◌, ◌++◌, length, OnOk};
ghost use Rattle.elf_writer.specs.Pieces.{half_bytes, word_bytes, words_bytes, padded};

use elf_writer::{padding_after, push_zeros};
use std::alloc::AllocError;

/// Appends the low 16 bits of `n`, least byte first.
pub(crate) fn push_half(out: &mut Vec<u8>, n: u64) -> Result<(), AllocError>
    ensures { OnOk result (out.new.items ≡ out.old.items ++ half_bytes n) }
{
    out.extend_from_slice(&n.to_le_bytes()[..2])
}

/// Appends the low 32 bits of `n`, least byte first.
pub(crate) fn push_word(out: &mut Vec<u8>, n: u64) -> Result<(), AllocError>
    ensures { OnOk result (out.new.items ≡ out.old.items ++ word_bytes n) }
{
    out.extend_from_slice(&n.to_le_bytes()[..4])
}

/// Appends the low 32 bits of each number.
pub(crate) fn push_words(out: &mut Vec<u8>, numbers: &[u64]) -> Result<(), AllocError>
    ensures { OnOk result (out.new.items ≡ out.old.items ++ words_bytes numbers.now) }
{
    for n in numbers {
        push_word(out, *n)?;
    }
    Ok(())
}

/// Appends bytes, with zeros up to a multiple of 4 bytes.
pub(crate) fn push_padded(out: &mut Vec<u8>, bytes: &[u8]) -> Result<(), AllocError>
    ensures { OnOk result (out.new.items ≡ out.old.items ++ padded bytes.now) }
{
    out.extend_from_slice(bytes)?;
    push_zeros(out, padding_after(bytes.len()))
}

/// How many bytes `push_padded` appends.
#[tactic(auto, using(crate::proofs::ByteLemmas::length_padded))]
pub(crate) fn padded_size(bytes: &[u8]) -> u64
    ensures { result ≡ length (padded bytes.now) }
{
    let size = bytes.len();
    (size + padding_after(size)) as u64
}
