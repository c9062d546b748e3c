ghost use Rattle.std.specs.Prelude.{◌≡◌, map, option_copied};
ghost use Rattle.toml.specs.View.{table_view};
ghost use Rattle.board_config.specs.{Faults.{ReportsFirst}, Values.{members_of}, Keys.{prices_in, is_among, least_unknown, names_fault, unknown_fault}};

use crate::board::BoardFault;
use std::alloc::Global;
use toml::Table;

const TOP_NAMES: [&str; 14] = [
    "main", "spm", "patch", "areas", "price", "fix", "bss", "grain", "fence_i", "driver",
    "regions", "steps", "nodes", "twins",
];

const PRICE_NAMES: [&str; 6] = [
    "main_fetch",
    "main_read",
    "main_write",
    "spm_fetch",
    "spm_read",
    "spm_write",
];

/// Checks that each name is that of a key, first at the top and then in the table of prices.
#[tactic(auto, unfolding(crate::specs::Keys::unknown_fault))]
pub fn check_names(alloc: Global, table: &Table, prices: Option<&Table>) -> Result<(), BoardFault>
    requires { members_of prices ≡ prices_in (table_view table.now) }
    ensures { ReportsFirst result (unknown_fault (table_view table.now)) }
{
    check_known(alloc, table, &TOP_NAMES)?;
    match prices {
        Some(prices) => check_known(alloc, prices, &PRICE_NAMES),
        None => Ok(()),
    }
}

fn check_known(alloc: Global, table: &Table, known: &[&str]) -> Result<(), BoardFault>
    ensures { ReportsFirst result (names_fault (map (λ name. name.now) known.now) (table_view table.now)) }
{
    match unknown_name(table, known) {
        Some(name) => Err(BoardFault::UnknownKey {
            name: String::from_str(alloc, name)?,
        }),
        None => Ok(()),
    }
}

/// The least unknown name in the order of bytes, in which a table keeps its keys.
fn unknown_name<'a>(table: &'a Table, known: &[&str]) -> Option<&'a str>
    ensures { option_copied result ≡ least_unknown (map (λ name. name.now) known.now) (table_view table.now) }
{
    for (name, _) in table.iter() {
        if !is_known(known, name.as_str()) {
            return Some(name.as_str());
        }
    }
    None
}

#[tactic(auto, using(crate::proofs::Names::any_map))]
fn is_known(known: &[&str], name: &str) -> bool
    ensures { result ≡ is_among (map (λ name. name.now) known.now) name.now }
{
    known.contains(&name)
}
