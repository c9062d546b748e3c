// The registers that are live where control enters a region.
ghost use Rattle.std.specs.Prelude.{◌≡◌, ◌↔◌, ◌⊎◌, ℕ, ◌<◌, true, length, IfOk};
ghost use Rattle.reach_graph.specs.Reaching.{HasMark};
ghost use Rattle.rv32im.specs.RegSet.{IsIn};
ghost use Rattle.code_blocks.specs.declared.parts.Code.{Code};
ghost use Rattle.dataflow.specs.{Live.{Live}, Tables.{IsTableOf}, Overlaid.{is_border}};
ghost use Rattle.placement_candidates.specs.Found.{AreLiveAtBorders};

use code_blocks::Code;
use dataflow::LiveTable;
use region_former::RegionTable;
use rv32im::RegSet;
use std::alloc::{AllocError, Global};

/// Of each block the registers that are live where it begins, if control enters a region there, and else none.
pub(crate) fn registers_at_borders(
    alloc: Global,
    code: &Code,
    live: &LiveTable,
    regions: &RegionTable,
) -> Result<Vec<RegSet>, AllocError>
    requires { IsTableOf code.now live.now }
    ensures { IfOk result (λ asked. AreLiveAtBorders code.now regions.now.border.items (length code.now.blocks.items) asked.items) }
{
    let mut asked = Vec::new(alloc);
    for b in 0..code.blocks.len() {
        asked.push(registers_at(live, code.blocks[b].start, is_border(regions, b)))?;
    }
    Ok(asked)
}

/// Whether control enters the region of block `b` there.
fn is_border(regions: &RegionTable, b: usize) -> bool
    ensures { result ≡ is_border regions.now.border.items b }
{
    match regions.border.get(b) {
        Some(border) => *border,
        None => false,
    }
}

/// The registers that are live where the block at `leader` begins, if that is a border entry.
fn registers_at(live: &LiveTable, leader: u32, border: bool) -> RegSet
    ensures { (c : Code) → IsTableOf c live.now → (x : ℕ) → x < 32 → IsIn result x ↔ ((border ≡ true) × Live c leader x) }
{
    if border {
        live_registers(live, leader)
    } else {
        RegSet { bits: 0 }
    }
}

/// The registers that are live where the block at `leader` begins.
fn live_registers(live: &LiveTable, leader: u32) -> RegSet
    ensures { (c : Code) → IsTableOf c live.now → (x : ℕ) → x < 32 → IsIn result x ↔ Live c leader x }
{
    let mut bits = 0;
    for register in 0..32 {
        bits = with_register(bits, register, live.is_live(leader, register));
    }
    RegSet { bits }
}

/// The bits of a set, with that of a register if it is wanted.
fn with_register(bits: u32, register: u8, wanted: bool) -> u32
    requires { register < 32 }
    ensures { (x : ℕ) → HasMark result x ↔ (HasMark bits x ⊎ ((wanted ≡ true) × (x ≡ register))) }
{
    if wanted { bits | 1 << register } else { bits }
}
