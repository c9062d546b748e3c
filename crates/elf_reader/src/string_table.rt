ghost use Rattle.std.specs.Prelude.{◌≡◌, ℕ, ◌+◌, ◌/◌, ◌<◌, ◌≤◌, IsTrue, nat_lt, length, slice_index, IfOk};
ghost use Rattle.elf_reader.specs.{Sections.{name_in, has_name}, Names.{zero_from, block_start, IsIndexOf}};

use std::alloc::{AllocError, Global};

/// The bytes of a block, each of which the index has one entry for.
const BLOCK: usize = 256;

/// A string table (ELF, "String Table"), with an index of its zero bytes, so that a name is found without
/// going through the table.
#[derive(Drop)]
pub(crate) struct StringTable<'a> {
    bytes: &'a [u8],
    // for each block, and for the table's end, the place of the first zero byte at or behind its beginning
    zeros: Vec<usize>,
    ghost indexed: { IsIndexOf bytes.now zeros.items },
}

impl<'a> StringTable<'a> {
    /// The table of these bytes. It fails only where no memory was left.
    pub fn new(alloc: Global, bytes: &'a [u8]) -> Result<StringTable<'a>, AllocError>
        ensures { IfOk result (λ table. table.bytes.now ≡ bytes.now) }
    {
        let mut zeros = vec![in alloc; bytes.len(); bytes.len() / BLOCK + 2]?;
        fill_index(bytes, &mut zeros);
        Ok(StringTable { bytes, zeros })
    }

    /// The name that begins at byte `start`, without the zero byte that ends it.
    #[tactic(auto, using(crate::proofs::NameLemmas::begins_inside, crate::proofs::NameLemmas::zero_within, crate::proofs::NameLemmas::zero_behind, crate::proofs::NameLemmas::name_is))]
    pub fn name(&self, start: u32) -> &'a [u8]
        requires { IsTrue (has_name self.now.bytes.now start) }
        ensures { result.now ≡ name_in self.now.bytes.now start }
    {
        let start = start as usize;
        let next_block = start / BLOCK + 1;
        let stop = block_start(self.bytes, next_block);
        let end = first_zero(self.bytes, start, stop, self.zeros[next_block]);
        &self.bytes[start..end]
    }
}

/// Where block `block` begins; the table's length behind the last block.
fn block_start(bytes: &[u8], block: usize) -> usize
    requires { block ≤ length bytes.now / 256 + 1 }
    ensures { result ≡ block_start (length bytes.now) block }
{
    (block * BLOCK).min(bytes.len())
}

/// Fills the index of a table, in which the last entry is given.
#[tactic(auto, using(crate::proofs::NameLemmas::last_entry))]
fn fill_index(bytes: &[u8], zeros: &mut [usize])
    requires blocks { length zeros.old ≡ length bytes.now / 256 + 2 }
    requires last { slice_index zeros.old (length bytes.now / 256 + 1) ≡ length bytes.now }
    ensures { IsIndexOf bytes.now zeros.new }
{
    for block in (0..bytes.len() / BLOCK + 1).rev() {
        let next_zero = zeros[block + 1];
        let start = block_start(bytes, block);
        let stop = block_start(bytes, block + 1);
        zeros[block] = first_zero(bytes, start, stop, next_zero);
    }
}

/// The place of the first zero byte at or behind `start`, where `next_zero` is that at or behind `stop`.
#[tactic(auto, using(crate::proofs::NameLemmas::zero_here, crate::proofs::NameLemmas::zero_later))]
fn first_zero(bytes: &[u8], start: usize, stop: usize, next_zero: usize) -> usize
    requires order { start ≤ stop }
    requires within { stop ≤ length bytes.now }
    requires next { next_zero ≡ zero_from bytes.now stop }
    ensures { result ≡ zero_from bytes.now start }
{
    for place in start..stop {
        if bytes[place] == 0 {
            return place;
        }
    }
    next_zero
}

/// One behind the last zero byte of a string table, and 0 where there is none: a name begins at each byte
/// before it, and at no other.
#[tactic(auto, using(crate::proofs::NameLemmas::last_zero, crate::proofs::NameLemmas::none_behind, crate::proofs::NameLemmas::no_name_here))]
pub(crate) fn names_end(bytes: &[u8]) -> usize
    ensures { (start : ℕ) → has_name bytes.now start ≡ nat_lt start result }
{
    for place in (0..bytes.len()).rev() {
        if bytes[place] == 0 {
            return place + 1;
        }
    }
    0
}
