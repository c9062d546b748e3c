ghost use Rattle.std.specs.Prelude.{◌≡◌, ◌↔◌, ◌⊎◌, ◌<◌, ℕ, length};
ghost use Rattle.reach_graph.specs.Reaching.{HasMark};
ghost use Rattle.code_blocks.specs.Leads.{units_in};
ghost use Rattle.dataflow.specs.{Live.{Uses, Defines}, Summaries.{NoneDefines, UsedFirst, PassesOver}};

use crate::registers::{among, defs_of, uses_of, without};
use code_blocks::{Block, Unit};
use reach_graph::joined;

/// What some units do with the registers: bit `k` of a word is register `k`.
#[derive(Clone, Copy)]
pub(crate) struct Summary {
    /// Those that they use before they define them.
    pub(crate) used: u64,
    /// Those that they don't define.
    pub(crate) kept: u64,
}

/// What the units of a block do; nothing passes over a block without units.
pub(crate) fn summary_of(block: &Block) -> Summary
    ensures used { (x : ℕ) → x < 32 → HasMark result.used x ↔ UsedFirst (units_in block.now) (length (units_in block.now)) x }
    ensures kept { (x : ℕ) → x < 32 → HasMark result.kept x ↔ PassesOver (units_in block.now) x }
{
    let all = over_units(&block.units);
    Summary {
        used: all.used,
        kept: kept_over(all.kept, block.units.len()),
    }
}

/// All of some marks, or none over no units.
fn kept_over(kept: u64, units: usize) -> u64
    ensures none { units ≡ 0 → result ≡ 0 }
    ensures some { 0 < units → result ≡ kept }
{
    if units == 0 { 0 } else { kept }
}

/// What units do, of which there may be none.
fn over_units(units: &[Unit]) -> Summary
    ensures used { (x : ℕ) → x < 32 → HasMark result.used x ↔ UsedFirst units.now (length units.now) x }
    ensures kept { (x : ℕ) → x < 32 → HasMark result.kept x ↔ NoneDefines units.now (length units.now) x }
{
    let mut all = Summary {
        used: 0,
        kept: u64::MAX,
    };
    for unit in units {
        all = all.then(unit);
    }
    all
}

impl Summary {
    ghost use Rattle.std.specs.Prelude.{◌↔◌, ◌⊎◌, ◌<◌, ℕ};
    ghost use Rattle.reach_graph.specs.Reaching.{HasMark};
    ghost use Rattle.dataflow.specs.Live.{Uses, Defines};

    /// What the units and one more do.
    fn then(self, unit: &Unit) -> Summary
        ensures used { (x : ℕ) → x < 32 → HasMark result.used x ↔ (HasMark self.used x ⊎ (HasMark self.kept x × Uses unit.now x)) }
        ensures kept { (x : ℕ) → x < 32 → HasMark result.kept x ↔ (HasMark self.kept x × (Defines unit.now x → ⊥)) }
    {
        Summary {
            used: joined(self.used, among(self.kept, uses_of(unit.instr))),
            kept: without(self.kept, defs_of(unit.instr)),
        }
    }
}
