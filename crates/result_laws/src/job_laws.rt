// Laws of the definitions: functions that do nothing, whose contracts are what is proved.
ghost use Rattle.result_laws.specs.{JobLaws.{JobsFit, CodeNumbers}, PatchLaws.{JobsSpare, ImagesLie, RoutineSwitches}, SwitchLaws.{StartMoves, SwitchesMove, CopiesHold}};

/// The jobs of the start leave each object's bytes at its first place as they were at home, and the copies of the code that
/// stands in the scratchpad throughout. They write nothing but slots of these.
pub fn start_moves()
    ensures { StartMoves }
{}

/// The jobs of a switch between regions leave each object's bytes at its place in the region that is entered, and the
/// copies of the code that is present there. They write nothing but slots and homes of what they move.
pub fn switches_move()
    ensures { SwitchesMove }
{}

/// Each job of a choice copies some bytes between the scratchpad and an object at home, or from an image to the scratchpad.
/// The jobs of each region take at most the scratchpad's room.
pub fn jobs_fit()
    ensures { JobsFit }
{}

/// While a region is current, the words of the image of a piece that is present stand in the piece's slot.
pub fn copies_hold()
    ensures { CopiesHold }
{}

/// The items of code have the slots of code in order.
pub fn code_numbers()
    ensures { CodeNumbers }
{}

/// In a plan of the patch range that has the jobs of a choice, all of them can be done. They write none of the plan's words.
pub fn jobs_spare()
    ensures { JobsSpare }
{}

/// Images that lie in the patch range meet neither the scratchpad nor an object at home.
pub fn images_lie()
    ensures { ImagesLie }
{}

/// Where the switch routine has run the jobs of a choice, each object's bytes are at its place in the region that is
/// entered. Nothing else has changed but control words, slots and homes of what was moved.
pub fn routine_switches()
    ensures { RoutineSwitches }
{}
