// Laws of the definitions: functions that do nothing, whose contracts are what is proved.
ghost use Rattle.flat_machine.specs.{Runs.{PerformsMeaning, EventsCompose, StepsCompose}, Runs.{EventsCount, EndedStays, IsDetermined, OutputGrows}, Lines.{LinesRun}, Sizes.{WordsStay}};

/// A machine that goes on and can fetch a word performs the instruction that the word means.
pub fn performs_meaning()
    ensures { PerformsMeaning }
{}

/// Runs compose, event by event; and a run of two parts can be cut between them.
pub fn events_compose()
    ensures { EventsCompose }
{}

/// Runs compose by their numbers of steps, and can be cut at each number.
pub fn steps_compose()
    ensures { StepsCompose }
{}

/// A run has as many events as steps.
pub fn events_count()
    ensures { EventsCount }
{}

/// A machine that has ended stays as it is, and each further step tells the same outcome.
pub fn ended_stays()
    ensures { EndedStays }
{}

/// A state has one next state and one event: the machine has no choice.
pub fn is_determined()
    ensures { IsDetermined }
{
    rv32im::one_instruction();
}

/// What was written stays written.
pub fn output_grows()
    ensures { OutputGrows }
{}

/// A machine that goes on performs the instructions of a line, one event for each.
pub fn lines_run()
    ensures { LinesRun }
{}

/// Registers hold words, and memory and input hold bytes: at the start of a program, and after each
/// step.
pub fn words_stay()
    ensures { WordsStay }
{
    rv32im::acts_keeps_words();
}
