// Laws of the definitions: functions that do nothing, whose contracts are what is proved.
ghost use Rattle.paid_energy.specs.{Leading.{UnitsLead, BranchesGo}, CountedWalks.{FormsAreCounted}, HomeWalks.{PairedRunsWalkHome}, WalkCosts.{HomeCostsEnergy, WalkCostsEnergy}, Laws.{ResultsPay}};

/// The words of a unit from which the program goes on lead the flat machine on by the unit's form: at home to the next unit's
/// home; in a copy to the next unit's copy, behind the copy where control falls out of the piece, or home; and in a stub home,
/// or to the jump behind a unit that doesn't jump.
pub fn units_lead()
    ensures { UnitsLead }
{}

/// A branch goes to its target or to the next unit as the registers of the flat machine say.
pub fn branches_go()
    ensures { BranchesGo }
{}

/// Beside a run that ends and makes no inward call a walk runs each unit at the form of the counted block and unit: in the copy
/// of a piece that is taken, displaced where control enters a region, and else at home. A pad is run where a block that is
/// copied or checked begins, to which control comes from outside, and nowhere else.
pub fn forms_are_counted()
    ensures { FormsAreCounted }
{}

/// Beside each paired run of its program that meets no address fault a file runs, as it is, the words of each unit at its home
/// and makes the unit's accesses where the file has its objects.
pub fn paired_runs_walk_home()
    ensures { PairedRunsWalkHome }
{}

/// At home the words and accesses of a run that ends in no fault cost the energy of the run with nothing taken.
pub fn home_costs_energy()
    ensures { HomeCostsEnergy }
{}

/// Where the program exits and makes no inward call, the words and accesses of a walk beside it cost the energy of the run with
/// what is taken: those of the start stub, of each unit, and of the ways between them with their switches.
pub fn walk_costs_energy()
    ensures { WalkCostsEnergy }
{}

/// Where a program exits, each file that realises a feasible choice exits with the same code within as many steps as are
/// enough; and where the run makes no inward call, that file pays the energy of the run with what is taken. Where nothing is
/// taken that is said of paired runs.
pub fn results_pay()
    ensures { ResultsPay }
{}
