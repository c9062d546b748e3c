ghost use Rattle.std.specs.Prelude.{◌≤◌, length};
ghost use Rattle.std.specs.List.Sorted.{IsStrictlyIncreasing};

use crate::registers::{has, lowest_clear};
use reach_graph::joined;
use rv32im::RegSet;

/// The registers that are live where each block of a program begins.
#[derive(Drop)]
pub struct LiveTable {
    /// Where the blocks begin, ascending.
    pub(crate) leaders: Vec<u32>,
    /// The live registers of each block: register `k` is bit `k`.
    pub(crate) live: Vec<u64>,
    ghost ascending: { IsStrictlyIncreasing leaders.items },
    ghost one_each: { length leaders.items ≤ length live.items },
}

impl LiveTable {
    ghost use Rattle.std.specs.Prelude.{◌≡◌, ◌↔◌, ◌<◌, ℕ, true};
    ghost use Rattle.reach_graph.specs.Reaching.{HasMark};
    ghost use Rattle.code_blocks.specs.declared.parts.Code.{Code};
    ghost use Rattle.dataflow.specs.{Live.{Live}, Tables.{IsTableOf, IsLeastDead}};

    /// Whether a register is live where the block at `leader` begins: whether some path of units from there uses it
    /// before it defines it. Where no block begins none is; x0 never is.
    pub fn is_live(&self, leader: u32, reg: u8) -> bool
        requires { reg < 32 }
        ensures { (c : Code) → IsTableOf c self.now → (result ≡ true) ↔ Live c leader reg }
    {
        has(self.word_at(leader), reg)
    }

    /// The lowest of x5 to x31 that isn't live where the block at `leader` begins and isn't in `avoid`, if there is
    /// one.
    pub fn dead_at(&self, leader: u32, avoid: RegSet) -> Option<u8>
        ensures { (c : Code) → IsTableOf c self.now → IsLeastDead c leader avoid result }
    {
        lowest_clear(joined(self.word_at(leader), u64::from(avoid.bits)))
    }

    /// The live registers where the block at `leader` begins.
    fn word_at(&self, leader: u32) -> u64
        ensures { (c : Code) → IsTableOf c self.now → (x : ℕ) → x < 32 → HasMark result x ↔ Live c leader x }
    {
        match self.leaders.binary_search(&leader) {
            Ok(block) => self.live[block],
            Err(_) => 0,
        }
    }
}
