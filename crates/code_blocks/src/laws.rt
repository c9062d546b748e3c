ghost use Rattle.code_blocks.specs.Laws.{LeadersAreCode, IndirectLeadersAreLeaders, MeaningIsDecided, PairsAreCode};

/// Each leader is a word of code.
pub fn leaders_are_code()
    ensures { LeadersAreCode }
{}

/// Each leader that a jump to an address in a register may reach is a leader.
pub fn indirect_leaders_are_leaders()
    ensures { IndirectLeadersAreLeaders }
{}

/// A word passes the test for a meaning exactly where it means an instruction.
pub fn meaning_is_decided()
    ensures { MeaningIsDecided }
{}

/// Both words of a call pair are code, and no block begins on the second.
pub fn pairs_are_code()
    ensures { PairsAreCode }
{}
