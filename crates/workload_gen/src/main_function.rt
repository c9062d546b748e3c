//! The main function of the workload.
ghost use Rattle.std.specs.Prelude.{◌≡◌, ℕ, ◌+◌, ◌*◌, ◌<◌, ◌≤◌, ◌++◌, OnOk};
ghost use Rattle.workload_gen.specs.Workload as workload;

use crate::instructions::{addi, bne_back, jal, lui, sw};
use crate::kernels::{MAX_KERNELS, MINUS_ONE};
use std::alloc::AllocError;

/// Where main begins.
pub(crate) const TEXT_START: u32 = 0x1_0000;

/// Where the sum is stored.
pub(crate) const OUT_START: u32 = 0x1_8000;

/// The bytes of a kernel.
pub(crate) const KERNEL_SIZE: u32 = 44;

/// The instruction `ecall`.
const ECALL: u32 = 0x73;

/// The bytes of main, which calls `kernels` kernels.
pub(crate) fn main_size(kernels: u32) -> u32
    requires { kernels ≤ MAX_KERNELS }
    ensures { result ≡ workload.main_size kernels }
{
    4 * (14 + kernels)
}

/// Where kernel `i` of `kernels` begins.
pub(crate) fn kernel_start(kernels: u32, i: u32) -> u32
    requires kernels { kernels ≤ MAX_KERNELS }
    requires i { i ≤ MAX_KERNELS }
    ensures { result ≡ workload.kernel_start kernels i }
{
    TEXT_START + main_size(kernels) + KERNEL_SIZE * i
}

/// Appends main: x8 counts ten rounds, in each of which every kernel is called, and x9 takes up what the
/// kernels add.
pub(crate) fn push_main(words: &mut Vec<u32>, kernels: u32) -> Result<(), AllocError>
    requires { kernels ≤ MAX_KERNELS }
    ensures { OnOk result (words.new.items ≡ words.old.items ++ workload.main_words kernels) }
{
    words.extend_from_slice(&[addi(8, 0, 10), addi(9, 0, 0)])?;
    push_calls(words, kernels)?;
    push_end(words, kernels)?;
    Ok(())
}

/// Appends the end of main: the end of a round; and behind the last, x9 is stored, its four bytes are
/// written (call 64), and main exits with 0 (call 93).
fn push_end(words: &mut Vec<u32>, kernels: u32) -> Result<(), AllocError>
    requires { kernels ≤ MAX_KERNELS }
    ensures { OnOk result (words.new.items ≡ words.old.items ++ workload.main_end kernels) }
{
    words.extend_from_slice(&[
        addi(8, 8, MINUS_ONE),
        bne_back(8, 0, 4 * (kernels + 1)),
        lui(11, OUT_START),
        addi(11, 11, OUT_START),
        sw(9, 11),
        addi(12, 0, 4),
        addi(17, 0, 64),
        ECALL,
        addi(10, 0, 0),
        addi(17, 0, 93),
        ECALL,
        jal(0, 0),
    ])
}

/// Appends the calls of the kernels, the first of which stands 8 bytes behind the beginning of main.
fn push_calls(words: &mut Vec<u32>, kernels: u32) -> Result<(), AllocError>
    requires { kernels ≤ MAX_KERNELS }
    ensures { OnOk result (words.new.items ≡ words.old.items ++ workload.calls_below kernels kernels) }
{
    for i in 0..kernels {
        let at = TEXT_START + 8 + 4 * i;
        words.push(jal(1, kernel_start(kernels, i) - at))?;
    }
    Ok(())
}
