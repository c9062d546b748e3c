// Laws of the definitions: functions that do nothing, whose contracts are what is proved.
ghost use Rattle.command_language.specs.MixLaws.{UnbrokenIsSpelled, BrokenIsFirst, ExampleMix, ExampleFaults};

/// A text in which no line breaks a rule is that of its lines.
pub fn unbroken_is_spelled()
    ensures { UnbrokenIsSpelled }
{}

/// The first line that breaks a rule, by the grammar.
pub fn broken_is_first()
    ensures { BrokenIsFirst }
{}

/// Two lines of one input.
pub fn example_mix()
    ensures { ExampleMix }
{}

/// Texts that break a rule, and where.
pub fn example_faults()
    ensures { ExampleFaults }
{}
