// Laws of the definitions: functions that do nothing, whose contracts are what is proved.
ghost use Rattle.placement_candidates.specs.Adding.{EnergyAddsUp, EnergyIsOfTheRun, GainsAreWithinTheBase};

/// The energy with different objects and disjoint pieces taken is the base and the fixed cost, less what each saves
/// alone.
pub fn energy_adds_up()
    ensures { EnergyAddsUp }
{
    rv32im::one_instruction();
}

/// The energy of a feasible choice of the programme is that of the run with what it takes.
pub fn energy_is_of_the_run()
    ensures { EnergyIsOfTheRun }
{
    rv32im::one_instruction();
}

/// A feasible choice saves no more than the energy with nothing taken.
pub fn gains_are_within_the_base()
    ensures { GainsAreWithinTheBase }
{
    rv32im::one_instruction();
}
