ghost use Rattle.std.specs.Prelude.{◌≡◌, ℕ, ◌+◌, ◌*◌, ◌%◌, ◌^◌, ◌<◌, ◌≤◌, ◌∷◌, [], List, length, slice_index, pos, ◌+ℤ◌, ◌≤ℤ◌, ◌<ℤ◌};
ghost use Rattle.rv32im.specs.Words.{HalvesRebuild, BytesRebuild, sign_extended, upper_half, lower_half, word_of, byte_of};

/// `%hi(a)`: the upper 20 bits of `a`, rounded so that `lo12(a)` makes up the rest
/// (RISC-V psABI, HI20).
pub fn hi20(a: u32) -> u32
    ensures { result ≡ upper_half a }
{
    a.wrapping_add(0x800) >> 12
}

/// `%lo(a)`: the low twelve bits of `a`, as a signed number (RISC-V psABI, LO12_I).
pub fn lo12(a: u32) -> i32
    ensures { result ≡ lower_half a }
{
    ((a << 20).cast_signed()) >> 20
}

/// The low `bits` bits of `w`, sign-extended to 32 bits.
pub fn sext(w: u32, bits: u32) -> u32
    requires low { 1 ≤ bits }
    requires high { bits ≤ 32 }
    ensures { result ≡ sign_extended w bits }
{
    let half = 1u64 << (bits - 1);
    let low = u64::from(w) % (2 * half);
    if low < half {
        low as u32
    } else {
        (low + ((1u64 << 32) - 2 * half)) as u32
    }
}

/// The bytes of a word, least first.
pub fn bytes4(w: u32) -> [u8; 4]
    ensures { result ≡ byte_of w 0 ∷ byte_of w 1 ∷ byte_of w 2 ∷ byte_of w 3 ∷ [] }
{
    w.to_le_bytes()
}

/// The word with these bytes, least first.
pub fn word4(b: [u8; 4]) -> u32
    ensures { result ≡ word_of (slice_index b 0) (slice_index b 1) (slice_index b 2) (slice_index b 3) }
{
    u32::from_le_bytes(b)
}

/// The two halves rebuild their word: `hi20(a) * 4096 + lo12(a) = a` modulo 2 ^ 32.
pub fn halves_rebuild()
    ensures { HalvesRebuild }
{}

/// A word's bytes are the word again.
pub fn bytes_rebuild()
    ensures { BytesRebuild }
{}
