ghost use Rattle.std.specs.Prelude.{◌≡◌, IfOk, IfErr, length, map};
ghost use Rattle.command_language.specs.{Command.{plain_command, plain_named, reads}, Lines.{plain_input, names_of}};
ghost use Rattle.relinking.specs.MixOfRuns as together;
ghost use Rattle.command_files.specs.Reading.{contents};
ghost use Rattle.command_line.specs.{Listing.{listed_name, listed_names, further_reads, RejectsLines}, Performing.{RejectsList}, MixFile.{inputs_of}};

use command_language::{Command, CommandFault, MixInput, NamedWord, read_mix};
use relinking::WeightedBytes;
use std::alloc::{AllocError, Global};

/// What a mix lists, and what stands under its names.
#[derive(Drop)]
pub struct ListedTexts<'a> {
    pub lines: Vec<MixInput<'a>>,
    /// One for each line.
    pub texts: &'a [Vec<u8>],
}

/// The names that the MIX of a command lists, by the texts of its words; none where it has no MIX.
///
/// The error is the first line that breaks a rule. `Memory` comes only where no memory was left.
pub fn listed_names<'a>(
    alloc: Global,
    command: &Command<'_>,
    texts: &'a [Vec<u8>],
) -> Result<Vec<NamedWord<'a>>, CommandFault>
    requires { length texts.now ≡ length (reads (plain_command command.now)) }
    ensures ok { IfOk result (λ names. map plain_named names.items ≡ further_reads (plain_command command.now) (contents texts.now)) }
    ensures err { IfErr result (RejectsList (plain_command command.now) (contents texts.now)) }
{
    match *command {
        Command::Mix { out, cert, .. } => match names_in(alloc, &texts[2], &[cert, out]) {
            Ok(names) => Ok(names),
            Err(fault) => Err(fault),
        },
        Command::CheckMix { .. } => match names_in(alloc, &texts[2], &[]) {
            Ok(names) => Ok(names),
            Err(fault) => Err(fault),
        },
        _ => Ok(Vec::new(alloc)),
    }
}

/// The names that a text lists, where none of these is written.
fn names_in<'a>(
    alloc: Global,
    mix: &'a [u8],
    written: &[&str],
) -> Result<Vec<NamedWord<'a>>, CommandFault>
    ensures ok { IfOk result (λ names. map plain_named names.items ≡ listed_names (names_of written.now) mix.now) }
    ensures err { IfErr result (RejectsLines (names_of written.now) mix.now) }
{
    match read_mix(alloc, mix, written) {
        Ok(lines) => Ok(names_of_lines(alloc, &lines)?),
        Err(fault) => Err(CommandFault::from(fault)),
    }
}

/// The names of some lines, with the place of the word that names their text.
fn names_of_lines<'a>(
    alloc: Global,
    lines: &[MixInput<'a>],
) -> Result<Vec<NamedWord<'a>>, AllocError>
    ensures { IfOk result (λ names. map plain_named names.items ≡ map listed_name (map plain_input lines.now)) }
{
    let mut names = Vec::new(alloc);
    for line in lines {
        names.push(NamedWord {
            place: 3,
            name: line.name,
        })?;
    }
    Ok(names)
}

/// The texts, each with the weight of its line.
pub fn weighted_texts<'a>(
    alloc: Global,
    lines: &[MixInput<'_>],
    texts: &'a [Vec<u8>],
) -> Result<Vec<WeightedBytes<'a>>, AllocError>
    requires { length texts.now ≡ length lines.now }
    ensures { IfOk result (λ inputs. map together.plain_input inputs.items ≡ inputs_of (map plain_input lines.now) (contents texts.now)) }
{
    let mut inputs = Vec::new(alloc);
    for i in 0..lines.len() {
        inputs.push(WeightedBytes {
            weight: lines[i].weight,
            bytes: &texts[i],
        })?;
    }
    Ok(inputs)
}
