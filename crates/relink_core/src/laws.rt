// Laws of the definitions: functions that do nothing, whose contracts are what is proved.
ghost use Rattle.relink_core.specs.{Keeps.{UnmovedFileKeeps, AbsoluteKeepsRuns}, ResultFaults.{ResultsAreRead}};

/// A file that is handed on as it is keeps its meaning in every paired run.
pub fn unmoved_file_keeps()
    ensures { UnmovedFileKeeps }
{}

/// What is kept in every paired run is kept in every run, where the code makes addresses by absolute relocations alone.
pub fn absolute_keeps_runs()
    ensures { AbsoluteKeepsRuns }
{}

/// A result of a file without a fault is read, but that it may be longer than 64 MiB, or its segments may take more than 16 MiB
/// of memory.
pub fn results_are_read()
    ensures { ResultsAreRead }
{}
