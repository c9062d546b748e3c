// Laws of the definitions: functions that do nothing, whose contracts are what is proved.
ghost use Rattle.patch_code.specs.Jobs.{JobsCopy};

/// What jobs leave in memory, byte by byte: outside all targets nothing changes, and a target's byte
/// is its source's, where no other job is in the way.
pub fn jobs_copy()
    ensures { JobsCopy }
{}
