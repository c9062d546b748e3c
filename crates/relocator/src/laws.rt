// Laws of the definitions: functions that do nothing, whose contracts are what is proved.
ghost use Rattle.relocator.specs.{Laws.{TwinsOfPairs, SlotsInside, SlotsDisjoint, SlotsApart, ObjectsInSlots, ObjectsStand, PlacesFit, HomesOffScratchpad, ObjectsOffCodeSlots, WholeSideHasSpace}, Examples.{TableHasSpace}};

/// The regions of a pair are its twins.
pub fn twins_of_pairs()
    ensures { TwinsOfPairs }
{}

/// The slots of a feasible choice lie in the scratchpad.
pub fn slots_inside()
    ensures { SlotsInside }
{}

/// Slots of what is in the scratchpad at one time share no byte.
pub fn slots_disjoint()
    ensures { SlotsDisjoint }
{}

/// An object has one slot at most while a region is current.
pub fn slots_apart()
    ensures { SlotsApart }
{}

/// An object stands in each slot that is its own while a region is current, as many bytes behind a multiple of the
/// grain as at home.
pub fn objects_in_slots()
    ensures { ObjectsInSlots }
{}

/// Each object stands wholly in a slot that is its own, or at home.
pub fn objects_stand()
    ensures { ObjectsStand }
{}

/// In each region the objects are at places at which they may stand: as their homes modulo the grain, behind
/// address 0 and below 2^32, and no two share a byte.
pub fn places_fit()
    ensures { PlacesFit }
{}

/// No object's home lies in the scratchpad.
pub fn homes_off_scratchpad()
    ensures { HomesOffScratchpad }
{}

/// No object shares a byte with the slot of code that is in the scratchpad at the same time.
pub fn objects_off_code_slots()
    ensures { ObjectsOffCodeSlots }
{}

/// A side with the rows of a layout, whose variables weigh what candidates do, is one that can be laid out.
pub fn whole_side_has_space()
    ensures { WholeSideHasSpace }
{}

/// There are programmes that can be laid out: that of the first object of a graph is one.
pub fn table_has_space()
    ensures { TableHasSpace }
{}
