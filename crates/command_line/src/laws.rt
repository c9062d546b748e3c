// Laws of the definitions: functions that do nothing, whose contracts are what is proved.
ghost use Rattle.command_line.specs.Promise.{ComparedRunsSafely};

/// One call of `compare` shows that the promise of `relink` holds for an input: where its status is 0, it tells that the
/// program exited or trapped, and the code of FILE makes addresses by absolute relocations alone.
pub fn compared_runs_safely()
    ensures { ComparedRunsSafely }
{
    compare_runner::compared_is_fault_free();
}
