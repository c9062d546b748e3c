ghost use Rattle.std.specs.Prelude.{◌≡◌, ◌≢◌, None};
ghost use Rattle.command_language.specs.Command.{texts};
ghost use Rattle.command_line.specs.{Answers.{IsDone, TellsRun, EndsRejected, Answers}, Promise.{KeepsPromise}, AfterPaid.{PrintsPaid}};

use crate::observing::{NoObserver, Observer};
use crate::performing::perform_command;
use command_files::Diagnostic;
use command_language::{CommandFault, parse};
use relinking::MeasuredEnd;
use shelf_io::{NoProgress, Progress, Shelf, Sink};
use std::alloc::Global;

/// What came of a command.
#[derive(Clone, Copy)]
pub struct CommandOutcome {
    /// The exit status, as of [`run`].
    pub status: u8,
    /// How the run ended by which the command measured a program, where it is a command that does, and its status is 0.
    pub measured: Option<MeasuredEnd>,
}

/// Does what the words of a command line, without the program's name, ask for, over the files of a
/// shelf; prints to a sink; and gives the exit status: 0 where the command did what it is for, and
/// else the status of the one fault line that is put (docs/COMMAND_LINE.md).
pub fn run<S: Shelf, K: Sink>(alloc: Global, words: &[String], shelf: &mut S, out: &mut K) -> u8
    // With status 0 of `relink` and `mix`, OUT does what FILE does, on each input on which its program meets no address fault.
    ensures promise { result ≡ 0 → KeepsPromise (texts words.now) (S.view shelf.old) (S.view shelf.new) }

    // And OUT pays what is printed behind `after`, where the measured runs exit and make no inward call.
    ensures pays { result ≡ 0 → PrintsPaid (texts words.now)
        (S.view shelf.old) (S.view shelf.new)
        (K.view out.old) (K.view out.new) }

    // With status 0 the command's result stands on the shelf, and its text was printed.
    ensures done { result ≡ 0 → IsDone (texts words.now)
        (S.view shelf.old) (S.view shelf.new)
        (K.view out.old) (K.view out.new) }

    // Any other status is that of a fault, which came for its cause alone.
    ensures rejected { result ≢ 0 → EndsRejected result (texts words.now)
        (S.view shelf.old) (S.view shelf.new)
        (K.view out.old) (K.view out.new) }

    // Where nothing outside fails, the status is the one that the inputs call for, or 9.
    ensures exact { Answers result (texts words.now)
        (S.view shelf.old) (S.view shelf.new)
        (K.view out.old) (K.view out.new) }
{
    run_command(alloc, words, shelf, out, &mut NoObserver, &NoProgress).status
}

/// Does the same, and also tells how the run ended by which the command measured a program. The observer is shown what the
/// command read and made, before any of it is written; words that are no command are not shown. Meanwhile it is told how far
/// the measured runs and the search are.
pub fn run_command<S: Shelf, K: Sink, O: Observer>(
    alloc: Global,
    words: &[String],
    shelf: &mut S,
    out: &mut K,
    observer: &mut O,
    progress: &dyn Progress,
) -> CommandOutcome
    ensures promise { result.status ≡ 0 → KeepsPromise (texts words.now) (S.view shelf.old) (S.view shelf.new) }
    ensures pays { result.status ≡ 0 → PrintsPaid (texts words.now)
        (S.view shelf.old) (S.view shelf.new)
        (K.view out.old) (K.view out.new) }
    ensures done { result.status ≡ 0 → IsDone (texts words.now)
        (S.view shelf.old) (S.view shelf.new)
        (K.view out.old) (K.view out.new) }
    ensures rejected { result.status ≢ 0 → EndsRejected result.status (texts words.now)
        (S.view shelf.old) (S.view shelf.new)
        (K.view out.old) (K.view out.new) }
    ensures exact { Answers result.status (texts words.now)
        (S.view shelf.old) (S.view shelf.new)
        (K.view out.old) (K.view out.new) }

    // The end is that of the program's run on the input, for the board's steps.
    ensures measured { result.status ≡ 0 → TellsRun (texts words.now) result.measured (S.view shelf.old) }
    ensures unmeasured { result.status ≢ 0 → result.measured ≡ None }
{
    let Some(command) = parse(words) else {
        return CommandOutcome {
            status: Diagnostic::new(alloc, &CommandFault::Usage).tell(out),
            measured: None,
        };
    };
    match perform_command(alloc, &command, shelf, out, observer, progress) {
        Ok(measured) => {
            compare_runner::kept_does_what_file_does();
            paid_energy::results_pay();
            CommandOutcome {
                status: 0,
                measured,
            }
        }
        Err(diagnostic) => CommandOutcome {
            status: diagnostic.tell(out),
            measured: None,
        },
    }
}
