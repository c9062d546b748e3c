// Laws of the definitions: functions that do nothing, whose contracts are what is proved.
ghost use Rattle.result_laws.specs.Entries.{RegionsTellBorders, EntersAtBorders, StartsAtBorder, BordersAreFree};

/// The table of a program's regions tells where control enters them.
pub fn regions_tell_borders()
    ensures { RegionsTellBorders }
{}

/// Control comes to a block of another region than the current one only where it enters that region, at the block's first
/// unit.
pub fn enters_at_borders()
    ensures { EntersAtBorders }
{}

/// A program starts in a block without a region, or at one by which control enters its region.
pub fn starts_at_border()
    ensures { StartsAtBorder }
{}

/// Where control enters a region, no live register and no cell of memory names an object that may be overlaid.
pub fn borders_are_free()
    ensures { BordersAreFree }
{}
