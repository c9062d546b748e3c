//! Where an object stands at the start.
ghost use Rattle.std.specs.Prelude.{◌≡◌, ◌<◌, length};
ghost use Rattle.relocator.specs.SiteWords.{row_length};
ghost use Rattle.relink_core.specs.Making.{start_place, HasStarts};

use object_graph::Graph;
use relocator::Places;

/// The first place of an object's row.
fn first_place(places: &Places, object: u32) -> u32
    requires object { object < length places.now.of.items }
    requires row { 0 < row_length places.now object }
    ensures { result ≡ start_place places.now object }
{
    places.of[object as usize][0]
}

/// Where an object stands before a region is entered.
pub(crate) fn start_place(graph: &Graph, places: &Places, object: u32) -> u32
    requires below { object < length graph.now.objects.items }
    requires starts { HasStarts graph.now places.now }
    ensures { result ≡ start_place places.now object }
{
    first_place(places, object)
}
