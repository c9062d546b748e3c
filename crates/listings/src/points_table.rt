//! The table of the objects whose addresses registers may hold where blocks begin.
ghost use Rattle.std.specs.Prelude.{ℕ, List};
ghost use Rattle.board_config.specs.declared.board.Board.{Board};
ghost use Rattle.relink_core.specs.Choices.{IsAnalysisOf};

use crate::listing::Listing;
use anyhow::Result;
use points_to::{PointsTable, points};
use relink_core::Analysis;

/// For each of the first blocks the registers that may hold addresses of objects, and which; and the objects that
/// escape.
pub(crate) fn list_points(listing: &mut Listing, analysis: &Analysis<'_>, most: usize) -> Result<()>
    requires { (file : List ℕ) × (board : Board) × IsAnalysisOf file board analysis.now }
{
    let table = points(listing.alloc(), &analysis.code, &analysis.graph)?;
    let objects = u32::try_from(analysis.graph.objects.len()).unwrap_or(u32::MAX);
    for block in analysis.code.blocks.iter().take(most) {
        list_leader_points(listing, &table, block.start, objects);
    }
    list_escapes(listing, &table, objects);
    Ok(())
}

/// A line with the objects whose addresses the registers may hold where a block begins.
fn list_leader_points(listing: &mut Listing, points: &PointsTable, leader: u32, objects: u32) {
    listing.address("points ", leader);
    for register in 0..32u8 {
        list_held(listing, points, leader, register, objects);
    }
    listing.end_line();
}

/// A line with the objects that escape.
fn list_escapes(listing: &mut Listing, points: &PointsTable, objects: u32) {
    listing.text("escape");
    for object in 0..objects {
        if points.escapes(object) {
            listing.number(" ", u64::from(object));
        }
    }
    listing.end_line();
}

/// The objects whose addresses a register may hold where a block begins.
fn list_held(listing: &mut Listing, points: &PointsTable, leader: u32, register: u8, objects: u32) {
    let mut before = false;
    for object in 0..objects {
        if points.may(leader, register, object) {
            if !before {
                listing.number(" x", u64::from(register));
            }
            listing.number(if before { "," } else { ":" }, u64::from(object));
            before = true;
        }
    }
}
