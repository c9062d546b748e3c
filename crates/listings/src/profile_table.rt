//! The table of a run's counts.
ghost use Rattle.std.specs.Prelude.{List, ℕ};
ghost use Rattle.relink_core.specs.Choices.{IsAnalysisOf};

use crate::listing::Listing;
use board_config::Board;
use object_machine::Outcome;
use profile_runner::{Edge, Profile, ProfileFault};
use relink_core::Analysis;
use relinking::measured_run;
use shelf_io::NoProgress;

/// The counts of a run without input for the board's steps, or its fault.
pub(crate) fn list_profile(listing: &mut Listing, analysis: &Analysis<'_>, board: &Board)
    requires { (file : List ℕ) × IsAnalysisOf file board.now analysis.now }
{
    match measured_run(listing.alloc(), analysis, board, b"", &NoProgress) {
        Ok(measured) => list_counts(listing, &measured.profile),
        Err(fault) => list_fault(listing, &fault),
    }
}

/// The address fault of a run.
pub(crate) fn list_fault(listing: &mut Listing, fault: &ProfileFault) {
    listing.text("fault: ");
    listing.shown(fault);
    listing.end_line();
}

fn list_counts(listing: &mut Listing, profile: &Profile) {
    listing.number_line("steps ", profile.steps);
    list_outcome(listing, profile.outcome);
    let (block, units) = profile.last;
    listing.number("last block ", u64::from(block));
    listing.number_line(" units ", u64::from(units));
    listing.text("arrivals");
    listing.numbers(&profile.arrivals);
    list_edges(listing, &profile.edges);
    list_rows(listing, "reads", &profile.reads);
    list_rows(listing, "writes", &profile.writes);
    listing.text("enters");
    listing.numbers(&profile.enters);
    listing.text("leaves");
    listing.numbers(&profile.leaves);
    list_rows(listing, "switches", &profile.switches);
}

fn list_edges(listing: &mut Listing, edges: &[Edge]) {
    for edge in edges {
        listing.number("edge ", u64::from(edge.from));
        listing.number(" to ", u64::from(edge.to));
        listing.number_line(" count ", edge.count);
    }
}

fn list_outcome(listing: &mut Listing, outcome: Outcome) {
    match outcome {
        Outcome::GoesOn => listing.text("running"),
        Outcome::Exited(code) => listing.number("exited ", u64::from(code)),
        Outcome::Trapped { pc } => listing.address("trapped ", pc),
        Outcome::AddressFault { pc, why } => {
            listing.address("address fault ", pc);
            listing.number(" reason ", u64::from(why));
        }
    }
    listing.end_line();
}

/// A line for each row of a table, with its number.
fn list_rows(listing: &mut Listing, name: &str, rows: &[Vec<u64>]) {
    for (k, row) in rows.iter().enumerate() {
        listing.text(name);
        listing.number(" ", k as u64);
        listing.text(":");
        listing.numbers(row);
    }
}
