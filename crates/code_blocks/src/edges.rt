ghost use Rattle.std.specs.Prelude.{◌≡◌, [], ◌∷◌};

use crate::ends::End;
use crate::parts::Code;
use smallvec::SmallVec;
use std::alloc::{AllocError, Global};

impl End {
    ghost use Rattle.std.specs.Prelude.{◌≤◌, length};
    ghost use Rattle.code_blocks.specs.Edges.{successors};

    /// The addresses to which an end leads by itself: of a branch its target and then what is behind it, of a
    /// call its target alone. An end at an address in a register has none. They need no memory of `alloc`.
    pub fn successors(&self, alloc: Global) -> SmallVec<u32, 2>
        ensures addresses { result.items ≡ successors self.now }
        ensures few { length result.items ≤ 2 }
    {
        match *self {
            End::Fall { next } => one_address(alloc, next),
            End::Branch { target, next } => two_addresses(alloc, target, next),
            End::Jump { target } => one_address(alloc, target),
            End::Call { target, .. } => one_address(alloc, target),
            End::Tail { target } => one_address(alloc, target),
            End::Indirect { .. } => SmallVec::new(alloc),
            End::Stop => SmallVec::new(alloc),
        }
    }
}

fn one_address(alloc: Global, address: u32) -> SmallVec<u32, 2>
    ensures { result.items ≡ address ∷ [] }
{
    let mut addresses = SmallVec::new(alloc);
    addresses.push_reserved(address);
    addresses
}

fn two_addresses(alloc: Global, first: u32, second: u32) -> SmallVec<u32, 2>
    ensures { result.items ≡ first ∷ second ∷ [] }
{
    let mut addresses = SmallVec::new(alloc);
    addresses.push_reserved(first);
    addresses.push_reserved(second);
    addresses
}

impl Code {
    ghost use Rattle.std.specs.Prelude.{ℕ, ◌+◌, ◌<◌, ◌≤◌, nat_lt, nat_le, true, false, List, ◌++◌, length, IfOk};
    ghost use Rattle.std.specs.List.Sorted.{IsStrictlyIncreasing, IsPartitionPoint};
    ghost use Rattle.smallvec.specs.SmallVec.{HasRoomFor};
    ghost use Rattle.code_blocks.specs.{Edges.{successors}, Numbers.{starts_of, end_at, IsNumberAt, AreNumbersAt}};

    /// Where the blocks begin, in their order. It fails only where no memory was left.
    pub fn starts(&self, alloc: Global) -> Result<Vec<u32>, AllocError>
        ensures { IfOk result (λ starts. starts.items ≡ starts_of self.now) }
    {
        let mut starts = Vec::new(alloc);
        for block in &self.blocks {
            starts.push(block.start)?;
        }
        Ok(starts)
    }

    /// The number of the block that begins at `leader`, if one does, by binary search.
    pub fn block_at(&self, leader: u32) -> Option<u32>
        requires { IsStrictlyIncreasing (starts_of self.now) }
        ensures { IsNumberAt self.now leader result }
    {
        let count = self.blocks_before(leader);
        if count == self.blocks.len() {
            return None;
        }
        if self.blocks[count].start == leader {
            Some(count as u32)
        } else {
            None
        }
    }

    /// How many blocks begin before an address.
    fn blocks_before(&self, address: u32) -> usize
        requires { IsStrictlyIncreasing (starts_of self.now) }
        ensures bound { result ≤ length self.now.blocks.items }
        ensures point { IsPartitionPoint (λ b. nat_lt b.start address ≡ true) (λ b. nat_lt b.start address ≡ false) self.now.blocks.items result }
    {
        self.blocks.partition_point(|block| block.start < address)
    }

    /// How many blocks begin at an address or before it, by binary search: the last of these is the block in which
    /// the address lies, if one has it.
    pub fn blocks_up_to(&self, address: u32) -> usize
        requires { IsStrictlyIncreasing (starts_of self.now) }
        ensures bound { result ≤ length self.now.blocks.items }
        ensures point { IsPartitionPoint (λ b. nat_le b.start address ≡ true) (λ b. nat_le b.start address ≡ false) self.now.blocks.items result }
    {
        self.blocks.partition_point(|block| block.start <= address)
    }

    /// The numbers of the blocks to which direct edges lead from block `block`: of those that begin where its
    /// end leads, in that order. They need no memory.
    pub fn successors(&self, block: u32) -> SmallVec<u32, 2>
        requires ascending { IsStrictlyIncreasing (starts_of self.now) }
        requires below { block < length self.now.blocks.items }
        ensures { AreNumbersAt self.now (successors (end_at self.now block)) result.items }
    {
        let alloc = *self.blocks.allocator();
        let addresses = self.blocks[block as usize].end.successors(alloc);
        let mut numbers = SmallVec::new(alloc);
        for address in addresses.as_slice() {
            self.add_number(&mut numbers, *address);
        }
        numbers
    }

    /// Adds the number of the block at an address, if one begins there.
    fn add_number(&self, numbers: &mut SmallVec<u32, 2>, address: u32)
        requires ascending { IsStrictlyIncreasing (starts_of self.now) }
        requires room { HasRoomFor numbers.old 1 }
        ensures exact { (addresses : List ℕ) → AreNumbersAt self.now addresses numbers.old.items → AreNumbersAt self.now (addresses ++ address ∷ []) numbers.new.items }
        ensures few { length numbers.new.items ≤ length numbers.old.items + 1 }
        ensures capacity { numbers.new.capacity ≡ numbers.old.capacity }
    {
        if let Some(number) = self.block_at(address) {
            numbers.push_reserved(number);
        }
    }
}
