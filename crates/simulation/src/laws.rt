// Laws of the definitions: functions that do nothing, whose contracts are what is proved.
ghost use Rattle.simulation.specs.Laws.{UnitsAtHome, MadeAtStart, MadeStays, RunsAtHome};

/// Where both machines are alike at the home of a unit, and what stands there stands for the unit, one paired
/// step of the machine without addresses is kept by one or two of the flat machine: these lead to states that
/// are alike again, or both machines end alike. A fault promises nothing.
pub fn units_at_home()
    ensures { UnitsAtHome }
{}

/// At the start of a program no upper part has an AUIPC beside it.
pub fn made_at_start()
    ensures { MadeAtStart }
{}

/// The AUIPC that is kept beside an upper part of an address made this very part: a step that goes on leaves
/// it so.
pub fn made_stays()
    ensures { MadeStays }
{}

/// A run of paired steps is kept whole by the flat machine, in one or two of its steps for each: it writes the
/// same, and exits with the same code, traps or goes on as the other machine does.
pub fn runs_at_home()
    ensures { RunsAtHome }
{}
