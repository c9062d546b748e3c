ghost use Rattle.std.specs.Prelude.{◌≡◌, ◌+◌};
ghost use Rattle.certificate_checker.specs.Shows.{in_32_bits};

/// A node that fails: its number and its depth, each at most 2^32 - 1.
#[derive(Drop)]
pub(crate) struct Failing {
    pub node: u32,
    pub depth: u32,
}

/// The next of the numbers that stop at 2^32 - 1.
#[tactic(auto, unfolding(crate::specs::Shows::in_32_bits))]
pub(crate) fn next_number(number: u32) -> u32
    ensures { result ≡ in_32_bits (number + 1) }
{
    number.saturating_add(1)
}
