// The objects whose addresses units and words of data have.
ghost use Rattle.std.specs.Prelude.{◌≡◌, ◌<◌, ◌≤◌, ℕ, List, length, IfSome};
ghost use Rattle.object_graph.specs.{Lookups.{IsSomeGraph}, declared.parts.Site.{Site}};
ghost use Rattle.code_blocks.specs.declared.parts.Unit.{Unit};
ghost use Rattle.reach_graph.specs.Reaching.{HasMark, word_at};
ghost use Rattle.dataflow.specs.{Points.{site_at}, Transfers.{AddsMarks, AreBefore, MakesHere, MakesInto, MakesInBlocks, IsInWords}};

use crate::holders::holders;
use crate::transfers::before_unit;
use crate::units::{made, written};
use code_blocks::{Code, Unit};
use object_graph::{Graph, Site};
use reach_graph::has_mark;

/// Marks the objects whose addresses some block makes in a register from which they may come to a marked place behind the
/// block.
pub(crate) fn mark_made(marks: &mut [bool], code: &Code, graph: &Graph, behind: &[u64])
    requires graph { IsSomeGraph graph.now }
    requires objects { length marks.old ≡ length graph.now.objects.items }
    requires blocks { length code.now.blocks.items ≤ length behind.now }
    requires memory { (b : ℕ) → b < length behind.now → HasMark (word_at behind.now b) 0 }
    ensures { AddsMarks (MakesInBlocks code.now graph.now.sites.items behind.now (length code.now.blocks.items)) marks.old marks.new }
{
    for b in 0..code.blocks.len() {
        mark_units(marks, graph, &code.blocks[b].units, behind[b]);
    }
}

/// Marks the objects whose addresses some units make and may bring to a marked place behind them.
fn mark_units(marks: &mut [bool], graph: &Graph, units: &[Unit], behind: u64)
    requires graph { IsSomeGraph graph.now }
    requires objects { length marks.old ≡ length graph.now.objects.items }
    requires memory { HasMark behind 0 }
    ensures { AddsMarks (MakesInto graph.now.sites.items units.now behind) marks.old marks.new }
{
    let mut word = holders(behind);
    for k in (0..units.len()).rev() {
        let unit = &units[k];
        let site = graph.site_at(unit.at);
        mark_unit(marks, word, unit, site);
        word = before_unit(word, unit, site);
    }
}

/// Marks the object whose address a unit makes, if it may come to a marked place. The word has the registers behind the unit.
fn mark_unit(marks: &mut [bool], word: u64, unit: &Unit, site: Option<Site>)
    requires object { IfSome site (λ s. s.object < length marks.old) }
    ensures { (sites : List Site) (us : List Unit) (behind : ℕ) → site_at sites unit.now.at ≡ site → AreBefore sites us behind word → AddsMarks (MakesHere sites unit.now us behind) marks.old marks.new }
{
    let to = written(unit.instr);
    if to > 31 || !has_mark(word, u32::from(to)) {
        return;
    }
    if let Some(object) = made(site, unit.instr) {
        marks[object as usize] = true;
    }
}

/// Marks the objects whose addresses words of data hold.
pub(crate) fn mark_words(marks: &mut [bool], graph: &Graph)
    requires graph { IsSomeGraph graph.now }
    requires objects { length marks.old ≡ length graph.now.objects.items }
    ensures { AddsMarks (IsInWords graph.now (length graph.now.data_words.items)) marks.old marks.new }
{
    for i in 0..graph.data_words.len() {
        marks[graph.data_words[i].object as usize] = true;
    }
}
