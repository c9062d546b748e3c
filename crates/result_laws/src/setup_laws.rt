// Laws of the definitions: functions that do nothing, whose contracts are what is proved.
ghost use Rattle.result_laws.specs.{SetupLaws.{SetupOfChoice, ChoiceIsSound, JobsOfChoiceServe}, Plans.{HomesOfChoice, PlanOfChoice, ChoiceCanSwitch}};

/// The setup of a choice with overlay has the places, images and copies of the choice, and what else stands still there
/// is what no switch changes.
pub fn setup_of_choice()
    ensures { SetupOfChoice }
{}

/// It meets what the simulation asks of a setup, in each region.
pub fn choice_is_sound()
    ensures { ChoiceIsSound }
{}

/// The jobs of the choice serve in each switch to a region that is entered.
pub fn jobs_of_choice_serve()
    ensures { JobsOfChoiceServe }
{}

/// Where an object that nothing writes is elsewhere, its home stands still with what the program has there at its start.
pub fn homes_of_choice()
    ensures { HomesOfChoice }
{}

/// The code of a plan with the jobs of the choice, which lies in the patch range, stands still in each region with the
/// region's number, and its jobs can be done.
pub fn plan_of_choice()
    ensures { PlanOfChoice }
{}

/// A switch of that plan to a region that is entered can be made, within a bound of steps.
pub fn choice_can_switch()
    ensures { ChoiceCanSwitch }
{}
