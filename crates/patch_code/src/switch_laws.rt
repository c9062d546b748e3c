// Laws of the definitions: functions that do nothing, whose contracts are what is proved.
ghost use Rattle.patch_code.specs.{Switches.{StubPasses, StubSwitches, BodyJumps}, Moves.{JobsMove}, Switching.{RoutineOfJobs}, SwitchPlans.{RoutineInRange, CheckingInRange}, Example.{ExampleWords}, Counts.{SwitchRunsJobs, SwitchRunsWords, SwitchIsBounded, RoutineCount}};

/// Where the region of a checking stub is current, the flat machine runs four of its words, which stand before its body, and
/// is at that. Memory is as it was, and all registers but the stub's own.
pub fn stub_passes()
    ensures { StubPasses }
{}

/// Where another region is current, the stub and the routine run the jobs that leave that one and enter the stub's. The
/// machine is at the stub's body then, with all registers but the stub's own as they were. Memory is as the jobs leave it,
/// but for the control words, of which the first is the stub's region. All accesses are told in order, and how many words
/// run. Each is one of the stub before its body, or of the routine.
pub fn stub_switches()
    ensures { StubSwitches }
{}

/// A stub's body that jumps runs its two words without an access, and leaves all registers but the stub's own.
pub fn body_jumps()
    ensures { BodyJumps }
{}

/// The routine of a plan of instructions is that of a plan of jobs, where the instructions are those of the jobs.
pub fn routine_of_jobs()
    ensures { RoutineOfJobs }
{}

/// Words can mean the instructions of a routine, where they can mean those of its jobs.
pub fn routine_in_range()
    ensures { RoutineInRange }
{}

/// Words can mean the instructions of a checking stub whose call reaches the routine.
pub fn checking_in_range()
    ensures { CheckingInRange }
{}

/// A switch runs the jobs that leave one region, and then those that enter the other. What twins keep is left out between
/// the two.
pub fn switch_runs_jobs()
    ensures { SwitchRunsJobs }
{}

/// Jobs move all their bytes, where none writes what another reads or writes. A list of jobs is done after another.
pub fn jobs_move()
    ensures { JobsMove }
{}

/// How many words of the routine run in a switch: just so many, by region.
pub fn switch_runs_words()
    ensures { SwitchRunsWords }
{}

/// With at most eight regions a stub and the routine run at most 12 * room + 82 words, where the slots of each region take
/// at most `room` bytes.
pub fn switch_is_bounded()
    ensures { SwitchIsBounded }
{}

/// How many words the routine has: three for a test, and eleven for a job.
pub fn routine_count()
    ensures { RoutineCount }
{}

/// The words of a stub and a routine, for one plan.
pub fn example_words()
    ensures { ExampleWords }
{}
