use crate::units::{TracedUnit, UnitTable};
use code_blocks::{Block, End};
use relink_core::Analysis;
use rv32im::{Instr, defs, uses};

/// The upper parts of addresses that AUIPCs of a block made and that registers still hold.
#[derive(Clone, Copy)]
struct HeldUppers {
    /// The registers that hold one: bit `k` is register `k`.
    held: u32,
    /// The address of the AUIPC that made what a register holds.
    made_by: [u32; 32],
}

/// Whether the text of a program alone tells that each of its runs is paired: a low part that is relative to the pc stands behind
/// the AUIPC that its relocation names, in the same block, with no unit between them that writes the register, and nothing else
/// uses what an AUIPC made.
pub(crate) fn is_paired_by_text(analysis: &Analysis<'_>, units: &UnitTable) -> bool {
    let mut held_at_jumps = 0;
    for block in &analysis.code.blocks {
        let Some(held) = held_behind(block, units) else {
            return false;
        };
        if let End::Indirect { .. } = block.end {
            held_at_jumps |= held;
        }
        let leaders = block.end.successors(*analysis.code.blocks.allocator());
        if is_some_live(analysis, leaders.as_slice(), held) {
            return false;
        }
    }
    !is_some_live(analysis, &analysis.code.indirect, held_at_jumps)
}

/// The registers that hold upper parts by AUIPCs of a block behind it; `None` where some unit in it may not be paired.
fn held_behind(block: &Block, units: &UnitTable) -> Option<u32> {
    let mut uppers = HeldUppers {
        held: 0,
        made_by: [0; 32],
    };
    for unit in &block.units {
        let at = unit.at;
        let unit = units.unit_at(at)?;
        if !uppers.is_paired(&unit) {
            return None;
        }
        uppers.follow(at, &unit);
    }
    Some(uppers.held)
}

/// Whether one of these registers is live where one of these blocks begins.
fn is_some_live(analysis: &Analysis<'_>, leaders: &[u32], registers: u32) -> bool {
    if registers == 0 {
        return false;
    }
    for leader in leaders {
        if is_one_live(analysis, *leader, registers) {
            return true;
        }
    }
    false
}

fn is_one_live(analysis: &Analysis<'_>, leader: u32, registers: u32) -> bool {
    for k in 0..32 {
        if registers & bit(k) != 0 && analysis.live.is_live(leader, k) {
            return true;
        }
    }
    false
}

impl HeldUppers {
    /// Whether a unit uses none of them, or as its base that by the AUIPC which its relocation names.
    fn is_paired(&self, unit: &TracedUnit) -> bool {
        let Some(auipc) = unit.named_at_site() else {
            return match unit.instr {
                Some(instr) => self.held & uses(&instr).bits == 0,
                None => true,
            };
        };
        match unit.instr {
            Some(Instr::Load { rs1, .. } | Instr::OpImm { rs1, .. }) => self.is_made_by(rs1, auipc),
            Some(Instr::Store { rs1, rs2, .. }) => {
                self.is_made_by(rs1, auipc) && self.held & bit(rs2) == 0
            }
            _ => false,
        }
    }

    /// Whether a register holds what this AUIPC made.
    fn is_made_by(&self, k: u8, auipc: u32) -> bool {
        match self.made_by.get(usize::from(k)) {
            Some(at) => self.held & bit(k) != 0 && *at == auipc,
            None => false,
        }
    }

    /// Follows a unit at an address.
    fn follow(&mut self, at: u32, unit: &TracedUnit) {
        if let Some(instr) = unit.instr {
            self.held &= !defs(&instr).bits;
        }
        match unit.instr {
            Some(Instr::Auipc { rd, .. }) if unit.site.is_some() && rd != 0 => {
                if let Some(made_by) = self.made_by.get_mut(usize::from(rd)) {
                    *made_by = at;
                    self.held |= bit(rd);
                }
            }
            _ => {}
        }
    }
}

/// The set of a register alone; of what is none, none.
fn bit(k: u8) -> u32 {
    1u32.checked_shl(u32::from(k)).unwrap_or(0)
}
