//! Tables of the objects that may move, and of the memory that stays.
ghost use Rattle.std.specs.Prelude.{List, ℕ};
ghost use Rattle.relink_core.specs.Choices.{IsAnalysisOf};

use crate::listing::Listing;
use anyhow::Result;
use board_config::{Board, Range};
use object_graph::{DataWord, Graph, Object, Site, SiteKind, fixed_ranges};
use relink_core::Analysis;

/// The grain, the objects, the sites and words that lead to them, and the code ranges.
pub(crate) fn list_graph(listing: &mut Listing, graph: &Graph) {
    listing.number_line("grain ", u64::from(graph.grain));
    for (k, object) in graph.objects.iter().enumerate() {
        list_object(listing, k as u64, object);
    }
    list_sites(listing, &graph.sites);
    list_data_words(listing, &graph.data_words);
    list_code_ranges(listing, &graph.code);
}

fn list_object(listing: &mut Listing, number: u64, object: &Object) {
    let how = if object.writable {
        " writable"
    } else {
        " constant"
    };
    listing.number("object ", number);
    listing.address(" ", object.home);
    listing.number(" ", u64::from(object.size));
    listing.text(how);
    listing.number_line(" symbol ", u64::from(object.name));
}

fn name_of_kind(kind: SiteKind) -> &'static str {
    match kind {
        SiteKind::Hi => " high",
        SiteKind::LowI => " low",
        SiteKind::LowS => " store",
    }
}

fn list_sites(listing: &mut Listing, sites: &[Site]) {
    for site in sites {
        listing.address("site ", site.at);
        listing.text(name_of_kind(site.kind));
        list_target(listing, site.object, site.offset);
    }
}

/// The end of a line with an object and an offset in it.
fn list_target(listing: &mut Listing, object: u32, offset: u32) {
    listing.number(" object ", u64::from(object));
    listing.number_line(" + ", u64::from(offset));
}

fn list_data_words(listing: &mut Listing, words: &[DataWord]) {
    for word in words {
        listing.address("word ", word.at);
        list_target(listing, word.object, word.offset);
    }
}

fn list_code_ranges(listing: &mut Listing, ranges: &[Range]) {
    for range in ranges {
        listing.address("code ", range.base);
        listing.number_line(" ", u64::from(range.size));
    }
}

/// The ranges of memory that stay as they are: the first address of each, and that behind the last.
pub(crate) fn list_fixed(
    listing: &mut Listing,
    analysis: &Analysis<'_>,
    board: &Board,
) -> Result<()>
    requires { (file : List ℕ) × IsAnalysisOf file board.now analysis.now }
{
    let ranges = fixed_ranges(listing.alloc(), &analysis.view, board, &analysis.graph)?;
    for range in &ranges {
        list_fixed_range(listing, range);
    }
    Ok(())
}

fn list_fixed_range(listing: &mut Listing, range: &Range) {
    let end = u64::from(range.base) + u64::from(range.size);
    listing.address("fixed ", range.base);
    listing.end(" to ", end);
    listing.end_line();
}
