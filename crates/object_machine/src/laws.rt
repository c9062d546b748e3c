// Laws of the definitions: functions that do nothing, whose contracts are what is proved.
ghost use Rattle.object_machine.specs.Laws.{EndedStays, IsDetermined, StepsCompose, OutputGrows};

/// A machine that has ended stays as it is, and each further step tells the same outcome.
pub fn ended_stays()
    ensures { EndedStays }
{}

/// A state has one next state and one event: the machine has no choice.
pub fn is_determined()
    ensures { IsDetermined }
{
    rv32im::one_instruction();
}

/// Runs compose by their numbers of steps.
pub fn steps_compose()
    ensures { StepsCompose }
{}

/// What was written stays written.
pub fn output_grows()
    ensures { OutputGrows }
{}
