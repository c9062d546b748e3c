// Laws of the definitions: functions that do nothing, whose contracts are what is proved.
ghost use Rattle.result_laws.specs.{PlacedLaws.{PlacedResultKeeps}, Matching.{PlacedStatesMatch}, Walks.{PlacedWalks, ArrivalsAreDetermined, WalksAreCounted}};

/// A result for a choice of what stands in the scratchpad does on every input what its program does on the machine whose
/// objects have no addresses, unless that ends in an address fault, while objects and code are copied in and out. No run
/// need be paired.
pub fn placed_result_keeps()
    ensures { PlacedResultKeeps }
{}

/// Where a program goes on, steps of its result lead behind each of the program's to a state that matches: objects at their
/// places in the region whose number the first control word has, those that nothing writes at their homes too, and the
/// unit that is next at one of its forms.
pub fn placed_states_match()
    ensures { PlacedStatesMatch }
{}

/// Beside each run of a program that meets no address fault its result runs, for each unit, the words of the unit's form and
/// makes the unit's accesses at the places of the current region; then those that lead to the next unit: out of a copy or
/// from a displaced unit, of the pad, of the stub with its switch, and of its body.
pub fn placed_walks()
    ensures { PlacedWalks }
{}

/// The regions in which the units of such a walk run are those that are counted as current in the transitions of the run:
/// that of the last block with a region that began.
pub fn walks_are_counted()
    ensures { WalksAreCounted }
{}

/// Where control is behind a unit's words tells whether words lead home from there, and which: homes, copies that are present
/// and stubs share no byte.
pub fn arrivals_are_determined()
    ensures { ArrivalsAreDetermined }
{}
