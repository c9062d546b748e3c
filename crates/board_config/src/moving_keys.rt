ghost use Rattle.std.specs.Prelude.{◌≡◌, ◌<◌, IfOk, false};
ghost use Rattle.toml.specs.{Data.{as_bool}, View.{table_view}};
ghost use Rattle.board_config.specs.{Faults.{Reads, ReadsAs, ReportsFirst}, Values.{data_of}, Keys.{any_value, key_value, fix_of, bss_of, grain_of, fence_i_of, moving_fault}, Board.{plain_texts}, Groups.{HasMoving}};

use crate::board::BoardFault;
use crate::limits::{bss_movable, grain};
use crate::values::{find, texts};
use std::alloc::Global;
use toml::{Table, Value};

/// What of a program may move, and how, keys 6 to 9.
#[derive(Drop)]
pub struct MovingKeys {
    pub fix: Vec<String>,
    pub bss_movable: bool,
    pub grain: u32,
    pub fence_i: bool,
}

/// Reads keys 6 to 9.
#[tactic(auto, unfolding(crate::specs::Keys::moving_fault))]
pub fn read_moving(alloc: Global, table: &Table) -> Result<MovingKeys, BoardFault>
    ensures fault { ReportsFirst result (moving_fault (table_view table.now)) }
    ensures values { IfOk result (HasMoving (table_view table.now)) }
{
    let fix = fix_key(alloc, table)?;
    let bss_movable = bss_key(table)?;
    let grain = grain_key(table)?;
    let fence_i = fence_i_key(table)?;
    Ok(MovingKeys {
        fix,
        bss_movable,
        grain,
        fence_i,
    })
}

fn fix_key(alloc: Global, table: &Table) -> Result<Vec<String>, BoardFault>
    ensures { ReadsAs plain_texts result (fix_of (table_view table.now)) }
{
    let Some(value) = find(table, "fix") else {
        return Ok(Vec::new(alloc));
    };
    texts(alloc, value)?.ok_or(BoardFault::WrongType { key: 6 })
}

fn bss_key(table: &Table) -> Result<bool, BoardFault>
    ensures { Reads result (bss_of (table_view table.now)) }
{
    let Some(value) = find(table, "bss") else {
        return Ok(false);
    };
    let Some(text) = value.as_str() else {
        return Err(BoardFault::WrongType { key: 7 });
    };
    bss_movable(text).ok_or(BoardFault::OutOfRange { key: 7 })
}

/// Reads key 8.
pub fn grain_key(table: &Table) -> Result<u32, BoardFault>
    ensures grain { Reads result (grain_of (table_view table.now)) }
    ensures some { IfOk result (λ grain. 0 < grain) }
{
    let Some(value) = find(table, "grain") else {
        return Ok(16);
    };
    let Some(number) = value.as_integer() else {
        return Err(BoardFault::WrongType { key: 8 });
    };
    grain(number).ok_or(BoardFault::OutOfRange { key: 8 })
}

fn fence_i_key(table: &Table) -> Result<bool, BoardFault>
    ensures { Reads result (fence_i_of (table_view table.now)) }
{
    flag_key(find(table, "fence_i"), 9)
}

/// The boolean of a key, or false where the key has no value.
pub fn flag_key(value: Option<&Value>, key: u32) -> Result<bool, BoardFault>
    ensures { Reads result (key_value key false as_bool any_value (data_of value.entry)) }
{
    let Some(value) = value else {
        return Ok(false);
    };
    value.as_bool().ok_or(BoardFault::WrongType { key })
}
