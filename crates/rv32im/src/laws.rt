// Laws of the definitions: functions that do nothing, whose contracts are what is proved.
ghost use Rattle.rv32im.specs.{Table.{OneWord, OneInstruction}, Acts.{ActsUsesOnly, ActsDefinesOnly, ActsKeepsWords}};

/// Two words below 2 ^ 32 that mean one instruction are equal.
pub fn one_word()
    ensures { OneWord }
{}

/// A word means at most one instruction.
pub fn one_instruction()
    ensures { OneInstruction }
{}

/// What an instruction does to a hart depends on the program counter, the memory and the
/// registers that it reads, alone.
pub fn acts_uses_only()
    ensures { ActsUsesOnly }
{}

/// An instruction changes no register but those that it writes. What the environment does at
/// ECALL comes on top.
pub fn acts_defines_only()
    ensures { ActsDefinesOnly }
{}

/// Where the program counter and the registers hold words and the memory holds bytes, an
/// instruction with fields in range leaves words and bytes.
pub fn acts_keeps_words()
    ensures { ActsKeepsWords }
{}
