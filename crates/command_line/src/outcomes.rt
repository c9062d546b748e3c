ghost use Rattle.std.specs.Prelude.{◌≡◌, IfOk, string_bytes, ◌++◌, ◌∷◌, []};
ghost use Rattle.command_line.specs.RunFile.{outcome_text};

use flat_machine::FlatOutcome;
use std::alloc::{AllocError, Global};

/// The line that tells how a machine stands: `exited N`, `trapped` or `running`, with its newline.
pub fn outcome_line(alloc: Global, outcome: FlatOutcome) -> Result<String, AllocError>
    ensures { IfOk result (λ line. string_bytes line ≡ outcome_text outcome ++ 10 ∷ []) }
{
    match outcome {
        FlatOutcome::GoesOn => String::from_str(alloc, "running\n"),
        FlatOutcome::Exited(code) => format!(in alloc; "exited {code}\n"),
        FlatOutcome::Trapped { .. } => String::from_str(alloc, "trapped\n"),
    }
}
