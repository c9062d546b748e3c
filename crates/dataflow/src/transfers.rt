// Against the flow of control over units.
ghost use Rattle.std.specs.Prelude.{◌≡◌, ◌≢◌, ◌⊎◌, ◌↔◌, ◌∷◌, ℕ, List};
ghost use Rattle.object_graph.specs.{Lookups.{IsSomeGraph}, declared.parts.Site.{Site}};
ghost use Rattle.code_blocks.specs.declared.parts.Unit.{Unit};
ghost use Rattle.reach_graph.specs.Reaching.{HasMark};
ghost use Rattle.dataflow.specs.{Points.{IsHolder, site_at}, Transfers.{AreBefore}};

use crate::holders::{holders, with_register, without_register};
use crate::units::{first_source, second_source, stored, written};
use code_blocks::Unit;
use object_graph::{Graph, Site};
use reach_graph::has_mark;

/// The registers before some units whose addresses may come to a marked place behind them. Memory is among these.
pub(crate) fn registers_before(units: &[Unit], graph: &Graph, behind: u64) -> u64
    requires graph { IsSomeGraph graph.now }
    requires memory { HasMark behind 0 }
    ensures { AreBefore graph.now.sites.items units.now behind result }
{
    let mut word = holders(behind);
    for k in (0..units.len()).rev() {
        let unit = &units[k];
        word = before_unit(word, unit, graph.site_at(unit.at));
    }
    word
}

/// The registers before a unit whose addresses may come to a marked place, by those behind it, which the word has.
pub(crate) fn before_unit(word: u64, unit: &Unit, site: Option<Site>) -> u64
    ensures { (sites : List Site) (us : List Unit) (behind : ℕ) → site_at sites unit.now.at ≡ site → HasMark behind 0 → AreBefore sites us behind word → AreBefore sites (unit.now ∷ us) behind result }
{
    let to = written(unit.instr);
    let first = first_source(site, unit.instr);
    let second = second_source(unit.instr);
    with_register(carried(word, to, first, second), stored(unit.instr))
}

/// The registers, with two others in place of register `to`, if that is among them.
fn carried(word: u64, to: u8, first: u8, second: u8) -> u64
    ensures { ((x : ℕ) → HasMark word x → IsHolder x) → (x : ℕ) → HasMark result x ↔ (((x ≢ to) × HasMark word x) ⊎ (HasMark word to × IsHolder x × ((x ≡ first) ⊎ (x ≡ second)))) }
{
    if to > 31 || !has_mark(word, u32::from(to)) {
        return word;
    }
    with_register(with_register(without_register(word, to), first), second)
}
