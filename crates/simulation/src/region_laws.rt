// Laws of the definitions: functions that do nothing, whose contracts are what is proved.
ghost use Rattle.simulation.specs.RegionLaws.{RegionsChange, PlacesDecide, UnwrittenStay, UnwrittenAreHome, HomesStayed};

/// Where both machines are alike in one region, and no register that matters and no cell of memory names an object that
/// moves, they are alike in another once the flat machine has brought each object and what stands still there to its place.
pub fn regions_change()
    ensures { RegionsChange }
{}

/// Where all upper parts of addresses are made by LUIs, the objects that move are those whose places differ.
pub fn places_decide()
    ensures { PlacesDecide }
{}

/// A step that goes on leaves objects that aren't writable as they were.
pub fn unwritten_stay()
    ensures { UnwrittenStay }
{}

/// Where the homes of such objects stand still while they are elsewhere, the bytes there are theirs too.
pub fn unwritten_are_home()
    ensures { UnwrittenAreHome }
{}

/// These bytes are also those that stand still there in another region, before anything is copied.
pub fn homes_stayed()
    ensures { HomesStayed }
{}
