// Laws of the definitions: functions that do nothing, whose contracts are what is proved.
ghost use Rattle.paid_energy.specs.Counted.{RegionsAreCounted};

/// In each transition of a run of an accepted file, the counted block and unit are those that stand at its address. The
/// block is of the region that is counted as current, or of none. That region changes only where the block begins and
/// control enters the block's region.
pub fn regions_are_counted()
    ensures { RegionsAreCounted }
{}
