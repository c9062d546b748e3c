// Laws of the definitions: functions that do nothing, whose contracts are what is proved.
ghost use Rattle.result_laws.specs.{Chosen.{ChoicesServe}, ArrivalLaws.{SwitchesChange}};

/// A switch whose jobs bring each object, and what stands still, to its place in the next region changes the region.
pub fn switches_change()
    ensures { SwitchesChange }
{}

/// So do the jobs of a choice with overlay, where objects and code stand as the choice puts them.
pub fn choices_serve()
    ensures { ChoicesServe }
{}
