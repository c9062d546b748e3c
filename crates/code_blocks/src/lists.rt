use crate::search::has_address;

/// Where the blocks of a program's code begin, and which words are calls of two instructions.
/// Each list is ascending, and has each address once.
#[derive(Drop)]
pub struct Leaders {
    /// The addresses at which a block begins.
    pub all: Vec<u32>,
    /// Those among them that a jump to an address in a register may reach.
    pub indirect: Vec<u32>,
    /// The addresses of the AUIPCs of call pairs.
    pub pairs: Vec<u32>,
}

impl Leaders {
    ghost use Rattle.std.specs.Prelude.{◌≡◌};
    ghost use Rattle.std.specs.List.Sorted.{IsStrictlyIncreasing};
    ghost use Rattle.code_blocks.specs.Early.{has};

    /// Whether a block begins at `address`.
    pub fn is_leader(&self, address: u32) -> bool
        requires { IsStrictlyIncreasing self.now.all.items }
        ensures { result ≡ has self.now.all.items address }
    {
        has_address(&self.all, address)
    }

    /// Whether a jump to an address in a register may reach the block at `address`.
    pub fn is_indirect(&self, address: u32) -> bool
        requires { IsStrictlyIncreasing self.now.indirect.items }
        ensures { result ≡ has self.now.indirect.items address }
    {
        has_address(&self.indirect, address)
    }

    /// Whether the word at `address` is the AUIPC of a call pair.
    pub fn is_pair(&self, address: u32) -> bool
        requires { IsStrictlyIncreasing self.now.pairs.items }
        ensures { result ≡ has self.now.pairs.items address }
    {
        has_address(&self.pairs, address)
    }
}
