// Laws of the definitions: functions that do nothing, whose contracts are what is proved.
ghost use Rattle.dataflow.specs.Overlaid.{WordsEscape};

/// An object whose address is nowhere in memory has no word of data that holds it.
pub fn words_escape()
    ensures { WordsEscape }
{}
