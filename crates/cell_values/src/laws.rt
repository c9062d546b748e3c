// Laws of the definitions: functions that do nothing, whose contracts are what is proved.
ghost use Rattle.cell_values.specs.Laws.{SplitJoins, ImmediatesAreNumbers, OperationsKeepWords};

/// A number, an address or an upper part that was stored and is loaded again is the same.
pub fn split_joins()
    ensures { SplitJoins }
{
    rv32im::bytes_rebuild();
}

/// An operation with an immediate does what the one on registers does with the immediate as a number.
pub fn immediates_are_numbers()
    ensures { ImmediatesAreNumbers }
{}

/// Operations on values that hold words leave such values.
pub fn operations_keep_words()
    ensures { OperationsKeepWords }
{
    rv32im::acts_keeps_words();
}
