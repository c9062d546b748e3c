// Laws of the definitions: functions that do nothing, whose contracts are what is proved.
ghost use Rattle.relinking.specs.Statements.{StatedIsRealisable, MixedIsRealisable};

/// A feasible choice of the programme that a run states can be realised: its variables are those of different objects of
/// the graph and of different pieces of the code, throughout, in a region or for a pair of regions, with their weights.
pub fn stated_is_realisable()
    ensures { StatedIsRealisable }
{}

/// The same of the programme that several runs state together.
pub fn mixed_is_realisable()
    ensures { MixedIsRealisable }
{}
