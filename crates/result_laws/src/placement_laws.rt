// A law of the definitions: a function that does nothing, whose contract is what is proved.
ghost use Rattle.result_laws.specs.PlacementLaws.{ChoiceLaysOut};

/// A feasible choice of a programme that is made for a program and a board can be laid out.
pub fn choice_lays_out()
    ensures { ChoiceLaysOut }
{}
