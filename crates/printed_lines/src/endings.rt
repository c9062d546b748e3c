ghost use Rattle.std.specs.Prelude.{◌≡◌, IfOk, string_bytes, ◌++◌, ◌∷◌, []};
ghost use Rattle.printed_lines.specs.Endings.{IsAddressFault, ending_text};

use object_machine::Outcome;
use std::alloc::{AllocError, Global};

/// The line that tells how a program's run ended: `exited N`, `trapped` or `running`, with its newline. A run that met
/// an address fault has none. It fails only where no memory was left.
pub fn ending_line(alloc: Global, outcome: Outcome) -> Result<String, AllocError>
    requires { IsAddressFault outcome → ⊥ }
    ensures { IfOk result (λ line. string_bytes line ≡ ending_text outcome ++ 10 ∷ []) }
{
    match outcome {
        Outcome::GoesOn => String::from_str(alloc, "running\n"),
        Outcome::Exited(code) => format!(in alloc; "exited {code}\n"),
        Outcome::Trapped { .. } => String::from_str(alloc, "trapped\n"),
        Outcome::AddressFault { .. } => unreachable!(),
    }
}
