// Laws of the definitions: functions that do nothing, whose contracts are what is proved.
ghost use Rattle.result_laws.specs.Held.{OneUnit, HeldAtStart, HeldStays, HeldInRuns};

/// No two units of a code stand at one address, so what registers may hold is that of the unit at the pc.
pub fn one_unit()
    ensures { OneUnit }
{}

/// Where an accepted file starts, no register holds an address, and memory those of objects that escape alone.
pub fn held_at_start()
    ensures { HeldAtStart }
{}

/// A step leaves addresses of objects where they may be: in registers where points-to says so, and in memory where the
/// objects escape. Where it traps, exits or faults, all stays as it is.
pub fn held_stays()
    ensures { HeldStays }
{}

/// In every state of every run of an accepted file, addresses of objects are where they may be.
pub fn held_in_runs()
    ensures { HeldInRuns }
{}
