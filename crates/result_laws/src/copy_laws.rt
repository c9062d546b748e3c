// Laws of the definitions: functions that do nothing, whose contracts are what is proved.
ghost use Rattle.result_laws.specs.{CopyLaws.{UnitsAreKinds, UnitsMean, OthersKeepWords, CopiedUnitsRun, CopiedBlocksFall}, CopyLaws.{UnitsFollow, DisplacedUnitsRun, RunsCount, TemporariesAreDead}, CopyLaws.{CopiesLeaveRegisters, FirstUnitsAreKinds}};

/// The instructions of each unit of a block that may be copied do what the unit's kind says: a plain one that is no
/// site does the same at each address.
pub fn units_are_kinds()
    ensures { UnitsAreKinds }
{}

/// So do those of a first unit that can be displaced: a block of which nothing else is asked may begin with it.
pub fn first_units_are_kinds()
    ensures { FirstUnitsAreKinds }
{}

/// The words of each unit of a block that may be copied mean instructions.
pub fn units_mean()
    ensures { UnitsMean }
{}

/// A unit that is no site keeps its word.
pub fn others_keep_words()
    ensures { OthersKeepWords }
{}

/// At the place of a unit in the copy of a piece its words run, and no others: at these addresses, without an access
/// unless the unit has one, and to the same registers, but for the temporary of a jump. Control goes where it goes at
/// home: to the copy of a block of the piece, and else to the home address.
pub fn copied_units_run()
    ensures { CopiedUnitsRun }
{}

/// The words of a unit's copy leave the registers that the unit's instructions leave at home, but for those that may
/// differ.
pub fn copies_leave_registers()
    ensures { CopiesLeaveRegisters }
{}

/// Behind the last unit of a copied block control falls to the copy of the next block in no step, or leaves the piece
/// in two.
pub fn copied_blocks_fall()
    ensures { CopiedBlocksFall }
{}

/// The copies of the units of a block stand one behind the other.
pub fn units_follow()
    ensures { UnitsFollow }
{}

/// The words of a first unit that is displaced run, and go where the unit at home does.
pub fn displaced_units_run()
    ensures { DisplacedUnitsRun }
{}

/// As many words run as the forms of units say, by where control goes.
pub fn runs_count()
    ensures { RunsCount }
{}

/// A jump to a block may write its temporary: that is no register that is live there, not the link, and not x0.
pub fn temporaries_are_dead()
    ensures { TemporariesAreDead }
{}
