ghost use Rattle.std.specs.Prelude.{◌≡◌, ℕ, true};
ghost use Rattle.std.specs.List.{list_any};
ghost use Rattle.object_graph.specs.Sites.{in_range};

use board_config::Range;

/// The widest of those of some ranges that have fewer bytes than `below`, or an empty one.
pub(crate) fn widest_below(ranges: &Vec<Range>, below: u32) -> Range
    ensures { (a : ℕ) → in_range result a ≡ true → list_any (λ r. in_range r a) ranges.now.items ≡ true }
{
    let mut widest = Range { base: 0, size: 0 };
    for k in 0..ranges.len() {
        if ranges[k].size > widest.size && ranges[k].size < below {
            widest = ranges[k];
        }
    }
    widest
}
