ghost use Rattle.std.specs.Prelude.{◌≡◌, ◌⊎◌, IfOk, IfErr};
ghost use Rattle.toml.specs.View.{table_view};
ghost use Rattle.board_config.specs.{Faults.{ReportsFirst}, Keys.{table_of, table_fault, first_key}, Board.{HasKeys, IsBoard, IsLawful}};

use crate::board::{Board, BoardFault};
use crate::memory_keys::read_memory;
use crate::moving_keys::read_moving;
use crate::price_keys::{price_table, read_prices};
use crate::unknown_keys::check_names;
use crate::work_keys::read_work;
use std::alloc::Global;
use toml::Table;

/// The board that a text describes. A key that the text leaves out has its default, so the empty text is
/// the default board. Where the text is no board, the fault is that of the first check that fails:
/// `NotToml`, then key by key, in the order of their numbers, `Missing`, `WrongType` and `OutOfRange`, and
/// then `UnknownKey` with the least unknown name, at the top and then in the table of prices.
pub fn read_board(alloc: Global, text: &[u8]) -> Result<Board, BoardFault>
    ensures fault { ReportsFirst result (first_key text.now) }
    ensures board { IfOk result (IsBoard text.now) }
    ensures lawful { IfOk result IsLawful }
{
    let table = parse(alloc, text)?;
    board_of(alloc, &table)
}

/// The table that a text is.
fn parse(alloc: Global, text: &[u8]) -> Result<Table, BoardFault>
    ensures ok { IfOk result (λ table. table_of text.now ≡ Some (table_view table)) }
    ensures err { IfErr result (λ fault. (fault ≡ BoardFault.Memory) ⊎ ((fault ≡ BoardFault.NotToml) × (table_of text.now ≡ None))) }
{
    let Ok(text) = std::str::from_utf8(text) else {
        return Err(BoardFault::NotToml);
    };
    match toml::table_from_str(alloc, text) {
        Ok(table) => Ok(table),
        Err(fault) if fault.is_memory() => Err(BoardFault::Memory),
        Err(_) => Err(BoardFault::NotToml),
    }
}

/// The board that a table describes.
fn board_of(alloc: Global, table: &Table) -> Result<Board, BoardFault>
    ensures fault { ReportsFirst result (table_fault (table_view table.now)) }
    ensures board { IfOk result (HasKeys (table_view table.now)) }
{
    let memory = read_memory(alloc, table)?;
    let price_table = price_table(table)?;
    let moving = read_moving(alloc, table)?;
    let prices = read_prices(price_table)?;
    let work = read_work(alloc, table)?;
    check_names(alloc, table, price_table)?;
    Ok(Board {
        main: memory.main,
        spm: memory.spm,
        patch: memory.patch,
        areas: memory.areas,
        prices,
        fix: moving.fix,
        bss_movable: moving.bss_movable,
        grain: moving.grain,
        fence_i: moving.fence_i,
        driver: work.driver,
        regions: work.regions,
        steps: work.steps,
        nodes: work.nodes,
        twins: work.twins,
    })
}
