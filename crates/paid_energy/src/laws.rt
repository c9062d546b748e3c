// Laws of the definitions: functions that do nothing, whose contracts are what is proved.
ghost use Rattle.paid_energy.specs.{FlatRuns.{OneRunFor, EndedRunsFor}, Inward.{InwardIsCounted}, Alike.{ResultsStartAlike}};

/// A machine runs in one way until it ends or a bound of steps is reached.
pub fn one_run_for()
    ensures { OneRunFor }
{
    rv32im::one_instruction();
}

/// A run that ends within one bound is the same within each greater one.
pub fn ended_runs_for()
    ensures { EndedRunsFor }
{}

/// The inward calls that are counted from a profile are those of its run.
pub fn inward_is_counted()
    ensures { InwardIsCounted }
{
    rv32im::one_instruction();
}

/// Two files that realise the same for a file start alike with any input: at one address, with the same registers and the same
/// byte at each address of memory. So they run alike, step by step, and pay the same.
pub fn results_start_alike()
    ensures { ResultsStartAlike }
{}
