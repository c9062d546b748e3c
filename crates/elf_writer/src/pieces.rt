//! Words and zeros at the end of a file that is being written.
ghost use Rattle.std.specs.Prelude.{◌≡◌, ◌++◌, OnOk};
ghost use Rattle.elf_writer.specs.Pieces.{words_bytes, zero_bytes, padding};

use std::alloc::AllocError;

/// Appends words, each least byte first.
pub fn push_words(out: &mut Vec<u8>, words: &[u32]) -> Result<(), AllocError>
    ensures { OnOk result (out.new.items ≡ out.old.items ++ words_bytes words.now) }
{
    for word in words {
        out.extend_from_slice(&word.to_le_bytes())?;
    }
    Ok(())
}

/// Appends `n` zero bytes.
#[tactic(auto, using(crate::proofs::ZeroLemmas::zero_pushed))]
pub fn push_zeros(out: &mut Vec<u8>, n: usize) -> Result<(), AllocError>
    ensures { OnOk result (out.new.items ≡ out.old.items ++ zero_bytes n) }
{
    for _ in 0..n {
        out.push(0)?;
    }
    Ok(())
}

/// How many bytes lead from `n` to the next multiple of 4.
pub fn padding_after(n: usize) -> usize
    ensures { result ≡ padding n }
{
    (4 - n % 4) % 4
}
