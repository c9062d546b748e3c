ghost use Rattle.std.specs.Prelude.{◌≡◌, ℕ, List};
ghost use Rattle.std.specs.List.Sorted.{IsStrictlyIncreasing};
ghost use Rattle.code_blocks.specs.{Early.{has}, Numbers.{starts_of}};
ghost use Rattle.object_machine.specs.{Program.{Program}, Machine.{state_of, IsProgram}};
ghost use Rattle.profile_runner.specs.{Transition.{is_going}, Tallies.{IsBlockAt, IsNext}};

use code_blocks::Code;
use object_machine::{Outcome, Source};

// Each step of a profile asks where it led, so that is inlined in its loop.

/// Whether a machine goes on.
#[inline(always)]
pub(crate) fn is_going(outcome: &Outcome) -> bool
    ensures { result ≡ is_going outcome.now }
{
    match *outcome {
        Outcome::GoesOn => true,
        Outcome::Exited(_) | Outcome::Trapped { .. } | Outcome::AddressFault { .. } => false,
    }
}

/// The block that begins where a step led, if the machine goes on and one does.
#[inline(always)]
pub(crate) fn next_block(source: &Source, outcome: &Outcome) -> Option<u32>
    ensures { (p : Program) (starts : List ℕ) → IsProgram p source.now → IsStrictlyIncreasing starts → ((a : ℕ) → p.is_block a ≡ has starts a) → IsNext starts (is_going outcome.now) (state_of p source.now).pc result }
{
    match *outcome {
        Outcome::GoesOn => source.block(),
        Outcome::Exited(_) | Outcome::Trapped { .. } | Outcome::AddressFault { .. } => None,
    }
}

/// The block that begins at an address, if one does, by binary search.
#[inline(never)]
pub(crate) fn block_at(code: &Code, address: u32) -> Option<u32>
    requires { IsStrictlyIncreasing (starts_of code.now) }
    ensures { IsBlockAt (starts_of code.now) address result }
{
    match code.block_at(address) {
        Some(block) => Some(block),
        None => None,
    }
}
