ghost use Rattle.std.specs.Prelude.{◌≡◌, ◌-◌, ◌^◌, ◌<◌, ◌≤◌, max, length, OnOk};
ghost use Rattle.placement_programme.specs.{Programme.{taken_gains, Fits}, Views.{plain_side}};
ghost use Rattle.certificate_checker.specs.Tallies.{AreTallies};
ghost use Rattle.branch_bound.specs.{Assignments.{taken}, Searching.{KeepsIncumbent}};

use crate::incumbents::Incumbent;
use certificate_checker::Assignment;
use placement_programme::Side;
use std::alloc::{AllocError, Global};

/// Takes an assignment for the incumbent where it gains more.
pub(crate) fn improve(
    alloc: Global,
    side: &Side,
    on: bool,
    node: &Assignment,
    best: &mut Incumbent,
) -> Result<(), AllocError>
    requires tallies { AreTallies (plain_side side.now) node.now }
    requires fits { Fits (plain_side side.now) (taken (plain_side side.now) node.now.marks.items) }
    requires small { best.old.gain ≤ 2 ^ 104 }
    ensures gain { OnOk result (best.new.gain ≡ max best.old.gain (taken_gains (plain_side side.now) (taken (plain_side side.now) node.now.marks.items) - (plain_side side.now).fixed)) }
    ensures small { best.new.gain ≤ 2 ^ 104 }
    ensures keeps { OnOk result (KeepsIncumbent on (plain_side side.now) best.old best.new) }
{
    if node.gains > best.gain + side.fixed {
        best.marks = node.marks.to_vec(alloc)?;
        best.on = on;
        best.gain = node.gains - side.fixed;
    }
    Ok(())
}
