// Laws of the definitions: functions that do nothing, whose contracts are what is proved.
ghost use Rattle.result_laws.specs.LiveUnits.{CodeUnitsStand, StepsLeadOn, LivenessKeeps};

/// The units of an accepted file's code stand one behind the other in their blocks, below 2^32 and no two at one
/// address, and a run of its program may find each.
pub fn code_units_stand()
    ensures { CodeUnitsStand }
{}

/// Where a step of a unit goes on, the unit at the pc behind it is one that runs next by the edges of the code.
pub fn steps_lead_on()
    ensures { StepsLeadOn }
{}

/// What is live at the units of the code are registers that matter as the simulation asks it: what a unit reads is live
/// at it, and so is what is live at the next one and not written between.
pub fn liveness_keeps()
    ensures { LivenessKeeps }
{}
