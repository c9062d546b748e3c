// The kinds of relocations (RISC-V psABI, "Relocations").
ghost use Rattle.std.specs.Prelude.{◌≡◌};
ghost use Rattle.loaded_file.specs.Records.{is_hint, is_call_kind, is_half_kind, is_byte_kind, width_of};
ghost use Rattle.object_graph.specs.Rewritable.{is_pair_low};

use elf_reader::{R_RISCV_PCREL_LO12_I, R_RISCV_PCREL_LO12_S};

/// Whether relocations of a kind change nothing: NONE, ALIGN and RELAX.
pub fn is_hint(kind: u32) -> bool
    ensures { result ≡ is_hint kind }
{
    matches!(kind, 0 | 43 | 51)
}

/// CALL and CALL_PLT.
pub(crate) fn is_call_kind(kind: u32) -> bool
    ensures { result ≡ is_call_kind kind }
{
    matches!(kind, 18 | 19)
}

/// ADD16, SUB16 and SET16.
fn is_half_kind(kind: u32) -> bool
    ensures { result ≡ is_half_kind kind }
{
    matches!(kind, 34 | 38 | 55)
}

/// ADD8, SUB8, SUB6, SET6, SET8, SET_ULEB128 and SUB_ULEB128.
fn is_byte_kind(kind: u32) -> bool
    ensures { result ≡ is_byte_kind kind }
{
    matches!(kind, 33 | 37 | 52 | 53 | 54 | 60 | 61)
}

/// Whether relocations of a kind are of the low part of a pair: PCREL_LO12_I and PCREL_LO12_S.
pub fn is_pair_low(kind: u32) -> bool
    ensures { result ≡ is_pair_low kind }
{
    kind == R_RISCV_PCREL_LO12_I || kind == R_RISCV_PCREL_LO12_S
}

/// How many bytes a relocation of this kind changes.
pub(crate) fn width_of(kind: u32) -> u32
    ensures { result ≡ width_of kind }
{
    if is_call_kind(kind) {
        8
    } else if is_half_kind(kind) {
        2
    } else if is_byte_kind(kind) {
        1
    } else {
        4
    }
}
