ghost use Rattle.std.specs.Prelude.{◌≡◌, ◌<◌, IfOk};
ghost use Rattle.toml.specs.View.{table_view};
ghost use Rattle.board_config.specs.{Faults.{Reads, ReadsAs, ReportsFirst}, Values.{data_of, pair_of, pairs_of}, Limits.{range_of, aligned_range, area_ranges}, Keys.{key_value, main_of, spm_of, patch_of, areas_of, memory_fault}, Groups.{HasMemory}};

use crate::board::{BoardFault, Range};
use crate::limits::{Measure, areas, measured_range, range};
use crate::moving_keys::grain_key;
use crate::values::{find, pair, pairs};
use std::alloc::Global;
use toml::{Table, Value};

const DEFAULT_MAIN: Range = Range {
    base: 0x0001_0000,
    size: 0x0008_0000,
};

const DEFAULT_SPM: Range = Range {
    base: 0x0100_0000,
    size: 4096,
};

const DEFAULT_PATCH: Range = Range {
    base: 0x0009_0000,
    size: 65536,
};

/// The mapped memory, keys 1 to 4.
#[derive(Drop)]
pub struct MemoryKeys {
    pub main: Range,
    pub spm: Range,
    pub patch: Range,
    pub areas: Vec<Range>,
}

/// Reads keys 1 to 4.
#[tactic(auto, unfolding(crate::specs::Keys::memory_fault))]
pub fn read_memory(alloc: Global, table: &Table) -> Result<MemoryKeys, BoardFault>
    ensures fault { ReportsFirst result (memory_fault (table_view table.now)) }
    ensures values { IfOk result (HasMemory (table_view table.now)) }
{
    let main = main_key(table)?;
    let spm = spm_key(table)?;
    let patch = patch_key(table)?;
    let areas = areas_key(alloc, table)?;
    Ok(MemoryKeys {
        main,
        spm,
        patch,
        areas,
    })
}

fn main_key(table: &Table) -> Result<Range, BoardFault>
    ensures { Reads result (main_of (table_view table.now)) }
{
    let Some(value) = find(table, "main") else {
        return Ok(DEFAULT_MAIN);
    };
    let Some(pair) = pair(value) else {
        return Err(BoardFault::WrongType { key: 1 });
    };
    range(pair).ok_or(BoardFault::OutOfRange { key: 1 })
}

fn spm_key(table: &Table) -> Result<Range, BoardFault>
    ensures { Reads result (spm_of (table_view table.now)) }
{
    let measure = Measure {
        unit: grain_key(table).unwrap_or(16),
        most: 0x0100_0000,
    };
    measured_key(find(table, "spm"), 2, measure, DEFAULT_SPM)
}

fn patch_key(table: &Table) -> Result<Range, BoardFault>
    ensures { Reads result (patch_of (table_view table.now)) }
{
    let measure = Measure {
        unit: 64,
        most: 0x0010_0000,
    };
    measured_key(find(table, "patch"), 3, measure, DEFAULT_PATCH)
}

/// The range of a key, by a measure.
fn measured_key(
    value: Option<&Value>,
    key: u32,
    measure: Measure,
    default: Range,
) -> Result<Range, BoardFault>
    requires { 0 < measure.unit }
    ensures { Reads result (key_value key default pair_of (aligned_range measure.unit measure.most) (data_of value.entry)) }
{
    let Some(value) = value else {
        return Ok(default);
    };
    let Some(pair) = pair(value) else {
        return Err(BoardFault::WrongType { key });
    };
    measured_range(pair, measure).ok_or(BoardFault::OutOfRange { key })
}

fn areas_key(alloc: Global, table: &Table) -> Result<Vec<Range>, BoardFault>
    ensures { ReadsAs (λ areas. areas.items) result (areas_of (table_view table.now)) }
{
    let Some(value) = find(table, "areas") else {
        return Ok(Vec::new(alloc));
    };
    let Some(pairs) = pairs(alloc, value)? else {
        return Err(BoardFault::WrongType { key: 4 });
    };
    areas(alloc, &pairs)?.ok_or(BoardFault::OutOfRange { key: 4 })
}
