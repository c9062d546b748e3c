// Laws of the definitions: functions that do nothing, whose contracts are what is proved.
ghost use Rattle.result_laws.specs.{Absolute.{AbsoluteRunsArePaired}, HomeLaws.{HomeIsSound, UnitsAreHome, StartIsAlike, FileKeeps, OneGraph, OneRun}};

/// In an accepted file that is loaded as it is, fixed memory, objects and code are mapped and share no byte, and
/// the homes of the objects are places at which they may stand.
pub fn home_is_sound()
    ensures { HomeIsSound }
{}

/// Each unit that a run of it may reach stands at its home, with its own word.
pub fn units_are_home()
    ensures { UnitsAreHome }
{}

/// Both machines start alike, at a unit.
pub fn start_is_alike()
    ensures { StartIsAlike }
{}

/// A run of paired steps from the start is kept whole by the flat machine on the file's own image, in one or two
/// of its steps for each.
pub fn file_keeps()
    ensures { FileKeeps }
{}

/// Where a file's code makes no address relative to the pc, every run of it is paired.
pub fn absolute_runs_are_paired()
    ensures { AbsoluteRunsArePaired }
{}

/// A file has one graph on a board: two graphs of its view have the same objects, sites, words of data and code
/// ranges, each in the same order, and the same grain.
pub fn one_graph()
    ensures { OneGraph }
{}

/// So it has one program there, and with an input one state in which that starts, whichever graph it is read from.
pub fn one_run()
    ensures { OneRun }
{}
