ghost use Rattle.std.specs.Prelude.{◌≢◌, ◌↔◌, ℕ, List, IsTrue, MatchOption, All};
ghost use Rattle.command_language.specs.Command.{texts, IsName, IsNameWord, AreNames, PlainCommand, Spells, SpellsGen, SpellsTrace, SpellsNoRun, SpellsNoCertified, SpellsNoMix, SpellsNoOther, IsDisjoint, IsCommand, plain_command};

use crate::commands::Command;
use crate::numbers::parse_number;
use crate::word_lists::{five_words, four_words, six_words, three_words, two_words};

/// The command that the words are, or `None` exactly where they are none.
pub fn parse(words: &[String]) -> Option<Command<'_>>
    ensures { MatchOption result
        ((command : PlainCommand) → IsCommand (texts words.now) command → ⊥)
        (λ command. IsCommand (texts words.now) (plain_command command)) }
{
    let command = spelled(words)?;
    if are_names(words) && is_disjoint(&command) {
        Some(command)
    } else {
        None
    }
}

/// The command that the words spell: its word, and then as many others as it has.
fn spelled(words: &[String]) -> Option<Command<'_>>
    ensures { MatchOption result
        ((command : PlainCommand) → Spells (texts words.now) command → ⊥)
        (λ command. Spells (texts words.now) (plain_command command)) }
{
    if let Some(command) = spelled_run(words) {
        return Some(command);
    }
    if let Some(command) = spelled_certified(words) {
        return Some(command);
    }
    if let Some(command) = spelled_mix(words) {
        return Some(command);
    }
    if let Some(command) = spelled_gen(words) {
        return Some(command);
    }
    spelled_unrun(words)
}

/// The command that the words spell, of those that run the program of a file and read no certificate.
fn spelled_run(words: &[String]) -> Option<Command<'_>>
    ensures { MatchOption result
        (SpellsNoRun (texts words.now))
        (λ command. Spells (texts words.now) (plain_command command)) }
{
    if let Some((file, board, input, out)) = four_words(words, "run") {
        return Some(Command::Run {
            file,
            board,
            input,
            out,
        });
    }
    if let Some((file, board, input, out, cert)) = five_words(words, "relink") {
        return Some(Command::Relink {
            file,
            board,
            input,
            out,
            cert,
        });
    }
    if let Some((file, board, input)) = three_words(words, "profile") {
        return Some(Command::Profile { file, board, input });
    }
    if let Some((file, relinked, board, input)) = four_words(words, "compare") {
        return Some(Command::Compare {
            file,
            relinked,
            board,
            input,
        });
    }
    None
}

/// The command that the words spell, of those that read a certificate for one run.
fn spelled_certified(words: &[String]) -> Option<Command<'_>>
    ensures { MatchOption result
        (SpellsNoCertified (texts words.now))
        (λ command. Spells (texts words.now) (plain_command command)) }
{
    if let Some((file, board, input, cert)) = four_words(words, "check") {
        return Some(Command::Check {
            file,
            board,
            input,
            cert,
        });
    }
    if let Some((file, board, input, cert)) = four_words(words, "paid") {
        return Some(Command::Paid {
            file,
            board,
            input,
            cert,
        });
    }
    match spelled_trace(words) {
        Some(command) => Some(command),
        None => None,
    }
}

/// `trace FILE BOARD INPUT CERT COUNT OUT`, if the words are that.
fn spelled_trace(words: &[String]) -> Option<Command<'_>>
    ensures { MatchOption result
        ((f b i c : List ℕ) (n : ℕ) (o : List ℕ) → SpellsTrace (texts words.now) f b i c n o → ⊥)
        (λ command. Spells (texts words.now) (plain_command command)) }
{
    let (file, board, input, cert, count, out) = six_words(words, "trace")?;
    let count = parse_number(count, 6, 1, 100_000)?;
    Some(Command::Trace {
        file,
        board,
        input,
        cert,
        count,
        out,
    })
}

/// The command that the words spell, of those of several runs.
fn spelled_mix(words: &[String]) -> Option<Command<'_>>
    ensures { MatchOption result
        (SpellsNoMix (texts words.now))
        (λ command. Spells (texts words.now) (plain_command command)) }
{
    if let Some((file, board, mix, out, cert)) = five_words(words, "mix") {
        return Some(Command::Mix {
            file,
            board,
            mix,
            out,
            cert,
        });
    }
    if let Some((file, board, mix, cert)) = four_words(words, "checkmix") {
        return Some(Command::CheckMix {
            file,
            board,
            mix,
            cert,
        });
    }
    None
}

/// The command that the words spell, of those that read files and run nothing.
fn spelled_unrun(words: &[String]) -> Option<Command<'_>>
    ensures { MatchOption result
        (SpellsNoOther (texts words.now))
        (λ command. Spells (texts words.now) (plain_command command)) }
{
    if let Some((file, board)) = two_words(words, "show") {
        return Some(Command::Show { file, board });
    }
    if let Some((file, out)) = two_words(words, "hex") {
        return Some(Command::Hex { file, out });
    }
    if let Some((file, hex)) = two_words(words, "hexcheck") {
        return Some(Command::HexCheck { file, hex });
    }
    None
}

/// `gen SEED KERNELS OUT`, if the words are that.
fn spelled_gen(words: &[String]) -> Option<Command<'_>>
    ensures { MatchOption result
        ((s k : ℕ) (o : List ℕ) → SpellsGen (texts words.now) s k o → ⊥)
        (λ command. Spells (texts words.now) (plain_command command)) }
{
    let (seed, kernels, out) = three_words(words, "gen")?;
    let seed = parse_number(seed, 10, 0, u32::MAX)?;
    let kernels = parse_number(kernels, 10, 1, 64)?;
    Some(Command::Gen { seed, kernels, out })
}

/// Whether no word is empty or begins like an option.
fn are_names(words: &[String]) -> bool
    ensures { IsTrue result ↔ AreNames (texts words.now) }
{
    all_names(words)
}

fn all_names(words: &[String]) -> bool
    ensures { IsTrue result ↔ All IsNameWord words.now }
{
    words.iter().all(|word| is_name(word.as_str()))
}

fn is_name(word: &str) -> bool
    ensures { IsTrue result ↔ IsName word.now }
{
    match word.as_bytes() {
        [] => false,
        [first, ..] => *first != b'-',
    }
}

/// Whether each name that is written differs from all others.
fn is_disjoint(command: &Command<'_>) -> bool
    ensures { IsTrue result ↔ IsDisjoint (plain_command command.now) }
{
    match *command {
        Command::Run {
            file,
            board,
            input,
            out,
        } => is_new(out, file, board, input),
        Command::Relink {
            file,
            board,
            input,
            out,
            cert,
        } => is_new(cert, file, board, input) && out != cert && is_new(out, file, board, input),
        Command::Profile { .. } => true,
        Command::Compare { .. } => true,
        Command::Check { .. } => true,
        Command::Paid { .. } => true,
        Command::Trace {
            file,
            board,
            input,
            cert,
            out,
            ..
        } => is_new(out, file, board, input) && cert != out,
        Command::Mix {
            file,
            board,
            mix,
            out,
            cert,
        } => is_new(cert, file, board, mix) && out != cert && is_new(out, file, board, mix),
        Command::CheckMix { .. } => true,
        Command::Show { .. } => true,
        Command::Gen { .. } => true,
        Command::Hex { file, out } => file != out,
        Command::HexCheck { .. } => true,
    }
}

/// Whether a name that is written differs from three that are read.
fn is_new(name: &str, file: &str, board: &str, input: &str) -> bool
    ensures { IsTrue result ↔ (file.now ≢ name.now) × (board.now ≢ name.now) × (input.now ≢ name.now) }
{
    file != name && board != name && input != name
}
