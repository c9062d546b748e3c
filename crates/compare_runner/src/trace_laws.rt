// Laws of the definitions: functions that do nothing, whose contracts are what is proved.
ghost use Rattle.compare_runner.specs.TraceLaws.{OneTrace, TracesAreWhole, TracedStepsAreFew, MovedIsTraced, UnmovedIsTraced, ResultsStart};

/// A program and its result have one trace.
pub fn one_trace()
    ensures { OneTrace }
{
    rv32im::one_instruction();
}

/// A trace that isn't lost has a step for each of the program's, and any other has fewer.
pub fn traces_are_whole()
    ensures { TracesAreWhole }
{
    rv32im::one_instruction();
}

/// Each traced step takes few in the flat machine.
pub fn traced_steps_are_few()
    ensures { TracedStepsAreFew }
{}

/// Where something is taken or overlaid, no trace beside a run without an address fault is lost, and each access is at the place
/// that its object has in the region that is current.
pub fn moved_is_traced()
    ensures { MovedIsTraced }
{}

/// Where nothing is moved, no trace beside a paired run is lost, and each access is at its object's home.
pub fn unmoved_is_traced()
    ensures { UnmovedIsTraced }
{}

/// Each result comes to a form of its program's first unit in few steps.
pub fn results_start()
    ensures { ResultsStart }
{}
