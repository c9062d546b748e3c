// Laws of the definitions: functions that do nothing, whose contracts are what is proved.
ghost use Rattle.profile_runner.specs.Laws.{TransitionsAreSteps, TransitionsAreDetermined, TransitionsAreFew};

/// The transitions of a run lead where its steps do.
pub fn transitions_are_steps()
    ensures { TransitionsAreSteps }
{}

/// A run has one list of transitions.
pub fn transitions_are_determined()
    ensures { TransitionsAreDetermined }
{
    rv32im::one_instruction();
}

/// A run has no more transitions than steps.
pub fn transitions_are_few()
    ensures { TransitionsAreFew }
{}
