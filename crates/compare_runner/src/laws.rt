// Laws of the definitions: functions that do nothing, whose contracts are what is proved.
ghost use Rattle.compare_runner.specs.{Laws.{OneComparison, KeptNeverDiffers, KeptRunsNeverDiffer, UnmovedNeverDiffers, KeptGoesOn, KeptRunsGoOn}, HeadlineLaws.{KeptDoesWhatFileDoes, KeptRunsStepByStep, AbsoluteIsPaired, EndedIsFaultFree, ComparedIsFaultFree, WhatIsSeenIsOne}};

/// A program and its result compare in one way: each answer comes exactly where its rule holds.
pub fn one_comparison()
    ensures { OneComparison }
{
    rv32im::one_instruction();
}

/// A result that keeps the meaning of a file never differs from it in a paired run.
pub fn kept_never_differs()
    ensures { KeptNeverDiffers }
{
    rv32im::one_instruction();
}

/// One that keeps it in every run, as one in which objects are moved, never differs from it.
pub fn kept_runs_never_differ()
    ensures { KeptRunsNeverDiffer }
{
    rv32im::one_instruction();
}

/// A file in which the analysis finds no fault never differs from itself in a paired run, and in none at all where its
/// code makes addresses by absolute relocations alone.
pub fn unmoved_never_differs()
    ensures { UnmovedNeverDiffers }
{
    kept_never_differs();
    kept_runs_never_differ();
    relink_core::unmoved_file_keeps();
    relink_core::absolute_keeps_runs();
}

/// Where a program goes on after a number of paired steps, so does a result that keeps its meaning after as many, or
/// fewer: it doesn't end before its program.
pub fn kept_goes_on()
    ensures { KeptGoesOn }
{}

/// The same of any steps, for a result that keeps the meaning in every run.
pub fn kept_runs_go_on()
    ensures { KeptRunsGoOn }
{}

/// A result that keeps the meaning of a file shows what the file shows, on the machine that runs both, and nothing else: on
/// each input on which the program meets no address fault in paired steps.
pub fn kept_does_what_file_does()
    ensures { KeptDoesWhatFileDoes }
{
    relink_core::unmoved_file_keeps();
}

/// So it does step by step, within a bound: the file and its result write the same and end alike.
pub fn kept_runs_step_by_step()
    ensures { KeptRunsStepByStep }
{
    relink_core::unmoved_file_keeps();
}

/// Where the code makes addresses by absolute relocations alone, each run without an address fault is paired.
pub fn absolute_is_paired()
    ensures { AbsoluteIsPaired }
{}

/// One paired run that ended without an address fault is the whole run.
pub fn ended_is_fault_free()
    ensures { EndedIsFaultFree }
{}

/// A comparison that finds both the same and tells that the program exited or trapped shows that it meets no address fault.
pub fn compared_is_fault_free()
    ensures { ComparedIsFaultFree }
{}

/// What is seen of a run is one thing: one exit with one code and one text, or one trap, or no end.
pub fn what_is_seen_is_one()
    ensures { WhatIsSeenIsOne }
{}
