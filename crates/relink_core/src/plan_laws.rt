// Laws of the definitions: functions that do nothing, whose contracts are what is proved.
ghost use Rattle.relink_core.specs.PlanLaws.{PlansFit, StubsHaveRoom};

/// A plan with the jobs, the images and the stubs of a placement of a feasible choice lies in the patch range, and can stand
/// there.
pub fn plans_fit()
    ensures { PlansFit }
{}

/// The stubs of all entries of a placement of a feasible choice have room in the patch range behind the start stub, one
/// behind the other.
pub fn stubs_have_room()
    ensures { StubsHaveRoom }
{}
