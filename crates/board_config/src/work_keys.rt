ghost use Rattle.std.specs.Prelude.{◌≡◌, IfOk, string_bytes};
ghost use Rattle.toml.specs.{Data.{as_integer}, View.{view, table_view}};
ghost use Rattle.board_config.specs.{Faults.{Reads, ReadsAs, ReportsFirst}, Values.{data_of}, Limits.{within}, Keys.{typed_value, key_value, driver_of, regions_of, steps_of, nodes_of, twins_of, work_fault}, Board.{plain_regions}, Groups.{HasWork}};

use crate::board::BoardFault;
use crate::limits::Bounds;
use crate::moving_keys::flag_key;
use crate::values::{find, text_lists};
use std::alloc::Global;
use toml::{Table, Value};

/// The regions, bounds on the work, and whether regions are twins, keys 16 to 20.
#[derive(Drop)]
pub struct WorkKeys {
    pub driver: String,
    pub regions: Vec<Vec<String>>,
    pub steps: u64,
    pub nodes: u64,
    pub twins: bool,
}

/// Reads keys 16 to 20.
#[tactic(auto, unfolding(crate::specs::Keys::work_fault))]
pub fn read_work(alloc: Global, table: &Table) -> Result<WorkKeys, BoardFault>
    ensures fault { ReportsFirst result (work_fault (table_view table.now)) }
    ensures values { IfOk result (HasWork (table_view table.now)) }
{
    let driver = driver_key(alloc, table)?;
    let regions = regions_key(alloc, table)?;
    let steps = steps_key(table)?;
    let nodes = nodes_key(table)?;
    let twins = twins_key(table)?;
    Ok(WorkKeys {
        driver,
        regions,
        steps,
        nodes,
        twins,
    })
}

fn driver_key(alloc: Global, table: &Table) -> Result<String, BoardFault>
    ensures { ReadsAs string_bytes result (driver_of (table_view table.now)) }
{
    let Some(value) = find(table, "driver") else {
        return Ok(String::from_str(alloc, "main")?);
    };
    let Some(name) = value.as_str() else {
        return Err(BoardFault::WrongType { key: 16 });
    };
    Ok(String::from_str(alloc, name)?)
}

fn regions_key(alloc: Global, table: &Table) -> Result<Vec<Vec<String>>, BoardFault>
    ensures { ReadsAs plain_regions result (regions_of (table_view table.now)) }
{
    let Some(value) = find(table, "regions") else {
        return Ok(Vec::new(alloc));
    };
    let Some(regions) = text_lists(alloc, value)? else {
        return Err(BoardFault::WrongType { key: 17 });
    };
    if regions.len() > 8 {
        return Err(BoardFault::OutOfRange { key: 17 });
    }
    Ok(regions)
}

fn steps_key(table: &Table) -> Result<u64, BoardFault>
    ensures { Reads result (steps_of (table_view table.now)) }
{
    number_key(find(table, "steps"), 18, 1_000_000_000, 100_000_000)
}

fn nodes_key(table: &Table) -> Result<u64, BoardFault>
    ensures { Reads result (nodes_of (table_view table.now)) }
{
    number_key(find(table, "nodes"), 19, 10_000_000, 100_000)
}

fn twins_key(table: &Table) -> Result<bool, BoardFault>
    ensures { Reads result (twins_of (table_view table.now)) }
{
    flag_key(find(table, "twins"), 20)
}

/// The number of a key, from 1 to `most`, or its default where the key has no value.
fn number_key(value: Option<&Value>, key: u32, most: u32, default: u32) -> Result<u64, BoardFault>
    ensures { Reads result (key_value key default as_integer (within 1 most) (data_of value.entry)) }
{
    match value {
        Some(value) => Ok(u64::from(number(value, key, Bounds { least: 1, most })?)),
        None => Ok(u64::from(default)),
    }
}

/// The number that a value of a key is.
pub fn number(value: &Value, key: u32, bounds: Bounds) -> Result<u32, BoardFault>
    ensures { Reads result (typed_value key (within bounds.least bounds.most) (as_integer (view value.now))) }
{
    let Some(number) = value.as_integer() else {
        return Err(BoardFault::WrongType { key });
    };
    bounds.number(number).ok_or(BoardFault::OutOfRange { key })
}
