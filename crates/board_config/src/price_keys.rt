ghost use Rattle.std.specs.Prelude.{◌≡◌, ◌+◌, ◌<◌, IfOk, Some};
ghost use Rattle.toml.specs.View.{table_view};
ghost use Rattle.board_config.specs.{Faults.{Reads, ReportsFault}, Values.{members_of}, Keys.{price_at, prices_in, price_table_fault, access_fault, prices_fault}, Board.{ArePrices}, Groups.{AreAccessPrices}};

use crate::board::{BoardFault, Prices};
use crate::limits::Bounds;
use crate::values::find;
use crate::work_keys::number;
use toml::Table;

/// What the accesses to one memory cost.
#[derive(Clone, Copy)]
pub struct AccessPrices {
    pub fetch: u32,
    pub read: u32,
    pub write: u32,
}

/// The table of prices, key 5.
#[tactic(auto, unfolding(crate::specs::Keys::price_table_fault))]
pub fn price_table(table: &Table) -> Result<Option<&Table>, BoardFault>
    ensures fault { ReportsFault result (price_table_fault (table_view table.now)) }
    ensures value { IfOk result (λ prices. members_of prices ≡ prices_in (table_view table.now)) }
{
    let Some(value) = find(table, "price") else {
        return Ok(None);
    };
    match value.as_table() {
        Some(prices) => Ok(Some(prices)),
        None => Err(BoardFault::WrongType { key: 5 }),
    }
}

/// Reads keys 10 to 15 of the table of prices, if there is one.
#[tactic(auto, unfolding(crate::specs::Keys::prices_fault))]
pub fn read_prices(prices: Option<&Table>) -> Result<Prices, BoardFault>
    ensures fault { ReportsFault result (prices_fault (members_of prices.entry)) }
    ensures values { IfOk result (ArePrices (members_of prices.entry)) }
{
    let main = access_prices(prices, 10, 10, "main_fetch", "main_read", "main_write")?;
    let spm = access_prices(prices, 13, 2, "spm_fetch", "spm_read", "spm_write")?;
    Ok(Prices {
        main_fetch: main.fetch,
        main_read: main.read,
        main_write: main.write,
        spm_fetch: spm.fetch,
        spm_read: spm.read,
        spm_write: spm.write,
    })
}

/// The prices of a fetch, a read and a write, by their names; their keys follow each other from `first` on.
#[tactic(auto, unfolding(crate::specs::Keys::access_fault))]
fn access_prices(
    prices: Option<&Table>,
    first: u32,
    default: u32,
    fetch: &str,
    read: &str,
    write: &str,
) -> Result<AccessPrices, BoardFault>
    requires { first < 16 }
    ensures fault { ReportsFault result (access_fault first default fetch.now read.now write.now (members_of prices.entry)) }
    ensures values { IfOk result (AreAccessPrices first default fetch.now read.now write.now (members_of prices.entry)) }
{
    let fetch = price(prices, first, fetch, default)?;
    let read = price(prices, first + 1, read, default)?;
    let write = price(prices, first + 2, write, default)?;
    Ok(AccessPrices { fetch, read, write })
}

/// One price: a table of prices has each of them.
fn price(prices: Option<&Table>, key: u32, name: &str, default: u32) -> Result<u32, BoardFault>
    ensures { Reads result (price_at key default name.now (members_of prices.entry)) }
{
    let Some(prices) = prices else {
        return Ok(default);
    };
    let Some(value) = find(prices, name) else {
        return Err(BoardFault::Missing { key });
    };
    number(
        value,
        key,
        Bounds {
            least: 0,
            most: 10_000,
        },
    )
}
