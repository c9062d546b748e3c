ghost use Rattle.std.specs.Prelude.{◌≡◌, Some, IfOk, IfErr};
ghost use Rattle.placement_programme.specs.Views.{plain_programme, plain_choice};
ghost use Rattle.certificate_checker.specs.Views.{plain_verdict};
ghost use Rattle.command_language.specs.FaultLine.{parts_of};
ghost use Rattle.command_line.specs.CheckFile.{answer_of, told_of, AcceptsChoice, RejectsText};

use certificate_checker::{Room, Verdict, check_text};
use command_language::CommandFault;
use placement_programme::{Choice, Programme};
use std::alloc::Global;

/// The choice of a certificate that is accepted.
#[derive(Drop)]
pub struct AcceptedChoice {
    pub choice: Choice,
    /// Whether the certificate's trees show that the choice is best. Else it has none.
    pub optimal: bool,
}

/// Reads a certificate for a programme, and checks it: its choice.
///
/// The error is the first byte at which the text breaks the grammar, or how its certificate fails. `Memory` comes only where no
/// memory was left.
pub fn accepted_choice(
    alloc: Global,
    programme: &Programme,
    cert: &[u8],
) -> Result<AcceptedChoice, CommandFault>
    ensures ok { IfOk result (λ accepted. AcceptsChoice (plain_programme programme.now) cert.now accepted.optimal (plain_choice accepted.choice)) }
    ensures err { IfErr result (RejectsText (plain_programme programme.now) cert.now) }
{
    let mut room = Room::new(alloc, programme)?;
    let verdict = check_text(programme, cert, &mut room)?;
    match shown(verdict) {
        Ok(optimal) => Ok(AcceptedChoice {
            choice: room.choice,
            optimal,
        }),
        Err(fault) => Err(fault),
    }
}

/// Whether a choice was shown to be best, where its certificate holds.
fn shown(verdict: Verdict) -> Result<bool, CommandFault>
    ensures ok { IfOk result (λ optimal. plain_verdict verdict ≡ answer_of optimal) }
    ensures err { IfErr result (λ fault. told_of (plain_verdict verdict) ≡ Some (parts_of fault)) }
{
    match verdict {
        Verdict::Optimal => Ok(true),
        Verdict::BestFound => Ok(false),
        Verdict::BadChoice => Err(CommandFault::BadChoice),
        Verdict::Wrong { side, node, .. } => Err(CommandFault::WrongTree { side, node }),
    }
}
