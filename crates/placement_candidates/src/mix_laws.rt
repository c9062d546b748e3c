// Laws of the definitions: functions that do nothing, whose contracts are what is proved.
ghost use Rattle.placement_candidates.specs.MixLaws.{MixIsOfTheRuns, MixedEnergyIsOfTheRuns, OneRunIsAlone};

use rv32im::one_instruction;

/// The mix of what each run states is what they state together.
pub fn mix_is_of_the_runs()
    ensures { MixIsOfTheRuns }
{
    one_instruction();
}

/// The energy of each feasible choice of what several runs state together is the sum of the runs' energies with what it
/// takes, by weight.
pub fn mixed_energy_is_of_the_runs()
    ensures { MixedEnergyIsOfTheRuns }
{
    one_instruction();
}

/// One run of weight 1 states together with no other what it states alone.
pub fn one_run_is_alone()
    ensures { OneRunIsAlone }
{
    one_instruction();
}
