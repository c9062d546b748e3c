ghost use Rattle.std.specs.Prelude.{◌≡◌, IfOk, ◌∷◌, [], map};
ghost use Rattle.command_language.specs.Command.{plain_named, named};

use std::alloc::{AllocError, Global};

/// A command, with its names and numbers (docs/COMMAND_LINE.md).
#[derive(Clone, Copy)]
pub enum Command<'a> {
    Run {
        file: &'a str,
        board: &'a str,
        input: &'a str,
        out: &'a str,
    },
    Relink {
        file: &'a str,
        board: &'a str,
        input: &'a str,
        out: &'a str,
        cert: &'a str,
    },
    Profile {
        file: &'a str,
        board: &'a str,
        input: &'a str,
    },
    Compare {
        file: &'a str,
        relinked: &'a str,
        board: &'a str,
        input: &'a str,
    },
    Check {
        file: &'a str,
        board: &'a str,
        input: &'a str,
        cert: &'a str,
    },
    Paid {
        file: &'a str,
        board: &'a str,
        input: &'a str,
        cert: &'a str,
    },
    Trace {
        file: &'a str,
        board: &'a str,
        input: &'a str,
        cert: &'a str,
        count: u32,
        out: &'a str,
    },
    Mix {
        file: &'a str,
        board: &'a str,
        mix: &'a str,
        out: &'a str,
        cert: &'a str,
    },
    CheckMix {
        file: &'a str,
        board: &'a str,
        mix: &'a str,
        cert: &'a str,
    },
    Show {
        file: &'a str,
        board: &'a str,
    },
    Gen {
        seed: u32,
        kernels: u32,
        out: &'a str,
    },
    Hex {
        file: &'a str,
        out: &'a str,
    },
    HexCheck {
        file: &'a str,
        hex: &'a str,
    },
}

/// A name of a command, and the place of its word among the words, from 0.
#[derive(Drop)]
pub struct NamedWord<'a> {
    pub place: u32,
    pub name: &'a str,
}

impl<'a> NamedWord<'a> {
    ghost use Rattle.std.specs.Prelude.{◌≡◌};
    ghost use Rattle.command_language.specs.Command.{plain_named, named};

    fn new(place: u32, name: &'a str) -> NamedWord<'a>
        ensures { plain_named result ≡ named place name.now }
    {
        NamedWord { place, name }
    }
}

impl<'a> Command<'a> {
    ghost use Rattle.std.specs.Prelude.{◌≡◌, IfOk, map};
    ghost use Rattle.command_language.specs.Command.{plain_command, plain_named, reads};

    /// The names that the command reads, in the order of the reads.
    pub fn reads(&self, alloc: Global) -> Result<Vec<NamedWord<'a>>, AllocError>
        ensures { IfOk result (λ names. map plain_named names.items ≡ reads (plain_command self.now)) }
    {
        match *self {
            Command::Run {
                file,
                board,
                input,
                ..
            } => three_names(alloc, file, board, input),
            Command::Relink {
                file,
                board,
                input,
                ..
            } => three_names(alloc, file, board, input),
            Command::Profile { file, board, input } => three_names(alloc, file, board, input),
            Command::Compare {
                file,
                relinked,
                board,
                input,
            } => four_names(alloc, file, relinked, board, input),
            Command::Check {
                file,
                board,
                input,
                cert,
            }
            | Command::Paid {
                file,
                board,
                input,
                cert,
            }
            | Command::Trace {
                file,
                board,
                input,
                cert,
                ..
            } => four_names(alloc, file, board, input, cert),
            Command::Mix {
                file,
                board,
                mix,
                ..
            } => three_names(alloc, file, board, mix),
            Command::CheckMix {
                file,
                board,
                mix,
                cert,
            } => four_names(alloc, file, board, mix, cert),
            Command::Show { file, board } => two_names(alloc, file, board),
            Command::Gen { .. } => Ok(Vec::new(alloc)),
            Command::Hex { file, .. } => one_name(alloc, file),
            Command::HexCheck { file, hex } => two_names(alloc, file, hex),
        }
    }
}

/// The names of the first words behind that of the command.
fn one_name<'a>(alloc: Global, first: &'a str) -> Result<Vec<NamedWord<'a>>, AllocError>
    ensures { IfOk result (λ names. map plain_named names.items ≡ named 1 first.now ∷ []) }
{
    Ok(vec![in alloc; NamedWord::new(1, first)]?)
}

fn two_names<'a>(
    alloc: Global,
    first: &'a str,
    second: &'a str,
) -> Result<Vec<NamedWord<'a>>, AllocError>
    ensures { IfOk result (λ names. map plain_named names.items ≡ named 1 first.now ∷ named 2 second.now ∷ []) }
{
    Ok(vec![in alloc; NamedWord::new(1, first), NamedWord::new(2, second)]?)
}

fn three_names<'a>(
    alloc: Global,
    first: &'a str,
    second: &'a str,
    third: &'a str,
) -> Result<Vec<NamedWord<'a>>, AllocError>
    ensures { IfOk result (λ names. map plain_named names.items
        ≡ named 1 first.now ∷ named 2 second.now ∷ named 3 third.now ∷ []) }
{
    Ok(vec![in alloc;
        NamedWord::new(1, first),
        NamedWord::new(2, second),
        NamedWord::new(3, third),
    ]?)
}

fn four_names<'a>(
    alloc: Global,
    first: &'a str,
    second: &'a str,
    third: &'a str,
    fourth: &'a str,
) -> Result<Vec<NamedWord<'a>>, AllocError>
    ensures { IfOk result (λ names. map plain_named names.items
        ≡ named 1 first.now ∷ named 2 second.now ∷ named 3 third.now ∷ named 4 fourth.now ∷ []) }
{
    Ok(vec![in alloc;
        NamedWord::new(1, first),
        NamedWord::new(2, second),
        NamedWord::new(3, third),
        NamedWord::new(4, fourth),
    ]?)
}
