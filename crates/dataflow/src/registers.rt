// The registers of a unit, and words of marks of which bit `k` is register `k`.
ghost use Rattle.std.specs.Prelude.{◌≡◌, ◌↔◌, ◌<◌, ℕ, true};
ghost use Rattle.rv32im.specs.RegSet.{IsIn, HasExactly};
ghost use Rattle.reach_graph.specs.Reaching.{HasMark};
ghost use Rattle.dataflow.specs.{Live.{uses_of, defs_of}, Marks.{ReportsClear}};

use rv32im::{Instr, RegSet, defs, uses};

/// The registers that a unit uses.
pub(crate) fn uses_of(instr: Option<Instr>) -> RegSet
    ensures { HasExactly result (uses_of instr) }
{
    match instr {
        Some(instr) => uses(&instr),
        None => RegSet { bits: 0 },
    }
}

/// The registers that a unit defines.
pub(crate) fn defs_of(instr: Option<Instr>) -> RegSet
    ensures { HasExactly result (defs_of instr) }
{
    match instr {
        Some(instr) => defs(&instr),
        None => RegSet { bits: 0 },
    }
}

/// The marks of a word that are registers of a set.
pub(crate) fn among(word: u64, set: RegSet) -> u64
    ensures { (x : ℕ) → HasMark result x ↔ (HasMark word x × IsIn set x) }
{
    word & u64::from(set.bits)
}

/// The marks of a word without the registers of a set.
pub(crate) fn without(word: u64, set: RegSet) -> u64
    ensures { (x : ℕ) → x < 32 → HasMark result x ↔ (HasMark word x × (IsIn set x → ⊥)) }
{
    word & !u64::from(set.bits)
}

/// Whether a word has the mark of a register.
pub(crate) fn has(word: u64, register: u8) -> bool
    requires { register < 32 }
    ensures { (result ≡ true) ↔ HasMark word register }
{
    (word >> register) & 1 == 1
}

/// The lowest register from x5 on whose bit is 0, if there is one.
pub(crate) fn lowest_clear(word: u64) -> Option<u8>
    ensures { ReportsClear word result }
{
    for register in 5..32 {
        if !has(word, register) {
            return Some(register);
        }
    }
    None
}
