ghost use Rattle.std.specs.Prelude.{◌≡◌, [], ◌≤◌, ℕ, List, IfOk, IfErr, length, string_bytes, ◌∷◌};
ghost use Rattle.command_language.specs.Command.{HasNumbers, plain_command, reads, run_command, relink_command, profile_command, compare_command, check_command, gen_command, hex_command, hex_check_command, show_command, paid_command, trace_command};
ghost use Rattle.command_files.specs.Reading.{contents};
ghost use Rattle.command_line.specs.{Meaning.{RejectsInputs, kernels_text}, Listing.{further_reads}, InputTexts.{inputs_in}, Performing.{IsPreparedFor}};

use crate::check_file::check_file;
use crate::compare_files::compare_files;
use crate::delivery::PreparedResult;
use crate::hex_files::{check_hex, hex_file};
use crate::input_texts::InputTexts;
use crate::mix_results::{prepare_check_mix, prepare_mix};
use crate::paid_file::paid_file;
use crate::profile_file::profile_file;
use crate::relink_file::relink_file;
use crate::run_file::run_file;
use crate::show_file::show_file;
use crate::trace_file::trace_file;
use command_language::{Command, CommandFault, NamedWord};
use printed_lines::Text;
use shelf_io::Progress;
use std::alloc::{AllocError, Global};
use workload_gen::workload;

/// Makes the result of a command of the texts under the names that it reads.
pub fn prepare_result<'a>(
    alloc: Global,
    command: &Command<'a>,
    inputs: &InputTexts<'a>,
    progress: &dyn Progress,
) -> Result<PreparedResult<'a>, CommandFault>
    requires numbers { HasNumbers (plain_command command.now) }
    requires texts { length inputs.now.texts.now ≡ length (reads (plain_command command.now)) }
    requires listed { length inputs.now.listed.now ≡ length (further_reads (plain_command command.now) (contents inputs.now.texts.now)) }
    ensures ok { IfOk result (IsPreparedFor (plain_command command.now) (inputs_in inputs.now)) }
    ensures err { IfErr result (RejectsInputs (plain_command command.now) (inputs_in inputs.now)) }
{
    let texts = inputs.texts;
    match *command {
        Command::Run { out, .. } => match prepare_run(alloc, out, texts) {
            Ok(prepared) => Ok(prepared),
            Err(fault) => Err(fault),
        },
        Command::Relink { out, cert, .. } => match prepare_relink(
            alloc, out, cert, texts, progress,
        ) {
            Ok(prepared) => Ok(prepared),
            Err(fault) => Err(fault),
        },
        Command::Profile { .. } => match prepare_profile(alloc, texts, progress) {
            Ok(prepared) => Ok(prepared),
            Err(fault) => Err(fault),
        },
        Command::Compare { .. } => match prepare_compare(alloc, texts) {
            Ok(prepared) => Ok(prepared),
            Err(fault) => Err(fault),
        },
        Command::Check { .. } => match prepare_check(alloc, texts, progress) {
            Ok(prepared) => Ok(prepared),
            Err(fault) => Err(fault),
        },
        Command::Paid { .. } => match prepare_paid(alloc, texts, progress) {
            Ok(prepared) => Ok(prepared),
            Err(fault) => Err(fault),
        },
        Command::Trace { count, out, .. } => match prepare_trace(alloc, count, out, texts) {
            Ok(prepared) => Ok(prepared),
            Err(fault) => Err(fault),
        },
        Command::Mix { out, cert, .. } => match prepare_mix(alloc, out, cert, inputs, progress) {
            Ok(prepared) => Ok(prepared),
            Err(fault) => Err(fault),
        },
        Command::CheckMix { .. } => match prepare_check_mix(alloc, inputs, progress) {
            Ok(prepared) => Ok(prepared),
            Err(fault) => Err(fault),
        },
        Command::Show { .. } => match prepare_show(alloc, texts) {
            Ok(prepared) => Ok(prepared),
            Err(fault) => Err(fault),
        },
        Command::Gen { seed, kernels, out } => match prepare_gen(alloc, seed, kernels, out) {
            Ok(prepared) => Ok(prepared),
            Err(fault) => Err(fault),
        },
        Command::Hex { out, .. } => match prepare_hex(alloc, out, texts) {
            Ok(prepared) => Ok(prepared),
            Err(fault) => Err(fault),
        },
        Command::HexCheck { .. } => match prepare_hex_check(alloc, texts) {
            Ok(prepared) => Ok(prepared),
            Err(fault) => Err(fault),
        },
    }
}

fn prepare_run<'a>(
    alloc: Global,
    out: &'a str,
    texts: &[Vec<u8>],
) -> Result<PreparedResult<'a>, CommandFault>
    requires { length texts.now ≡ 3 }
    ensures ok { IfOk result (λ prepared. (f b i : List ℕ)
        → IsPreparedFor (run_command f b i out.now) (contents texts.now) prepared) }
    ensures err { IfErr result (λ fault. (f b i : List ℕ)
        → RejectsInputs (run_command f b i out.now) (contents texts.now) fault) }
{
    match run_file(alloc, &texts[0], &texts[1], &texts[2]) {
        Ok(run) => {
            let line = run.line.into_bytes();
            let out = NamedWord {
                place: 4,
                name: out,
            };
            Ok(PreparedResult::written(alloc, out, run.output, line, None, None)?)
        }
        Err(fault) => Err(fault),
    }
}

fn prepare_relink<'a>(
    alloc: Global,
    out: &'a str,
    cert: &'a str,
    texts: &'a [Vec<u8>],
    progress: &dyn Progress,
) -> Result<PreparedResult<'a>, CommandFault>
    requires { length texts.now ≡ 3 }
    ensures ok { IfOk result (λ prepared. (f b i : List ℕ)
        → IsPreparedFor (relink_command f b i out.now cert.now) (contents texts.now) prepared) }
    ensures err { IfErr result (λ fault. (f b i : List ℕ)
        → RejectsInputs (relink_command f b i out.now cert.now) (contents texts.now) fault) }
{
    match relink_file(alloc, &texts[0], &texts[1], &texts[2], progress) {
        Ok(made) => Ok(PreparedResult::relinked(alloc, out, cert, made)?),
        Err(fault) => Err(fault),
    }
}

fn prepare_profile<'a>(
    alloc: Global,
    texts: &'a [Vec<u8>],
    progress: &dyn Progress,
) -> Result<PreparedResult<'a>, CommandFault>
    requires { length texts.now ≡ 3 }
    ensures ok { IfOk result (λ prepared. (f b i : List ℕ)
        → IsPreparedFor (profile_command f b i) (contents texts.now) prepared) }
    ensures err { IfErr result (λ fault. (f b i : List ℕ)
        → RejectsInputs (profile_command f b i) (contents texts.now) fault) }
{
    match profile_file(alloc, &texts[0], &texts[1], &texts[2], progress) {
        Ok(profiled) => {
            let end = Some(profiled.end);
            let opened = Some(profiled.opened);
            Ok(PreparedResult::printed(alloc, profiled.text, end, None, opened)?)
        }
        Err(fault) => Err(fault),
    }
}

fn prepare_compare<'a>(
    alloc: Global,
    texts: &'a [Vec<u8>],
) -> Result<PreparedResult<'a>, CommandFault>
    requires { length texts.now ≡ 4 }
    ensures ok { IfOk result (λ prepared. (f r b i : List ℕ)
        → IsPreparedFor (compare_command f r b i) (contents texts.now) prepared) }
    ensures err { IfErr result (λ fault. (f r b i : List ℕ)
        → RejectsInputs (compare_command f r b i) (contents texts.now) fault) }
{
    match compare_files(alloc, &texts[0], &texts[1], &texts[2], &texts[3]) {
        Ok(compared) => {
            let text = Text::plain(compared.text);
            let opened = Some(compared.opened);
            Ok(PreparedResult::printed(alloc, text, None, None, opened)?)
        }
        Err(fault) => Err(fault),
    }
}

fn prepare_check<'a>(
    alloc: Global,
    texts: &'a [Vec<u8>],
    progress: &dyn Progress,
) -> Result<PreparedResult<'a>, CommandFault>
    requires { length texts.now ≡ 4 }
    ensures ok { IfOk result (λ prepared. (f b i c : List ℕ)
        → IsPreparedFor (check_command f b i c) (contents texts.now) prepared) }
    ensures err { IfErr result (λ fault. (f b i c : List ℕ)
        → RejectsInputs (check_command f b i c) (contents texts.now) fault) }
{
    match check_file(alloc, &texts[0], &texts[1], &texts[2], &texts[3], progress) {
        Ok(checked) => {
            let text = Text::plain(checked.report.into_bytes());
            let end = Some(checked.end);
            let chosen = Some(checked.chosen);
            let opened = Some(checked.opened);
            Ok(PreparedResult::printed(alloc, text, end, chosen, opened)?)
        }
        Err(fault) => Err(fault),
    }
}

fn prepare_paid<'a>(
    alloc: Global,
    texts: &'a [Vec<u8>],
    progress: &dyn Progress,
) -> Result<PreparedResult<'a>, CommandFault>
    requires { length texts.now ≡ 4 }
    ensures ok { IfOk result (λ prepared. (f b i c : List ℕ)
        → IsPreparedFor (paid_command f b i c) (contents texts.now) prepared) }
    ensures err { IfErr result (λ fault. (f b i c : List ℕ)
        → RejectsInputs (paid_command f b i c) (contents texts.now) fault) }
{
    match paid_file(alloc, &texts[0], &texts[1], &texts[2], &texts[3], progress) {
        Ok(paid) => {
            let end = Some(paid.end);
            let opened = Some(paid.opened);
            Ok(PreparedResult::printed(alloc, paid.text, end, None, opened)?)
        }
        Err(fault) => Err(fault),
    }
}

fn prepare_trace<'a>(
    alloc: Global,
    count: u32,
    out: &'a str,
    texts: &'a [Vec<u8>],
) -> Result<PreparedResult<'a>, CommandFault>
    requires { length texts.now ≡ 4 }
    ensures ok { IfOk result (λ prepared. (f b i c : List ℕ)
        → IsPreparedFor (trace_command f b i c count out.now) (contents texts.now) prepared) }
    ensures err { IfErr result (λ fault. (f b i c : List ℕ)
        → RejectsInputs (trace_command f b i c count out.now) (contents texts.now) fault) }
{
    match trace_file(alloc, &texts[0], &texts[1], &texts[2], &texts[3], count) {
        Ok(traced) => {
            let line = traced.line.into_bytes();
            let end = Some(traced.end);
            let opened = Some(traced.opened);
            let out = NamedWord {
                place: 6,
                name: out,
            };
            Ok(PreparedResult::written(alloc, out, traced.text, line, end, opened)?)
        }
        Err(fault) => Err(fault),
    }
}

fn prepare_show<'a>(alloc: Global, texts: &'a [Vec<u8>]) -> Result<PreparedResult<'a>, CommandFault>
    requires { length texts.now ≡ 2 }
    ensures ok { IfOk result (λ prepared. (f b : List ℕ)
        → IsPreparedFor (show_command f b) (contents texts.now) prepared) }
    ensures err { IfErr result (λ fault. (f b : List ℕ)
        → RejectsInputs (show_command f b) (contents texts.now) fault) }
{
    match show_file(alloc, &texts[0], &texts[1]) {
        Ok(shown) => {
            let opened = Some(shown.opened);
            Ok(PreparedResult::printed(alloc, shown.text, None, None, opened)?)
        }
        Err(fault) => Err(fault),
    }
}

fn prepare_gen<'a>(
    alloc: Global,
    seed: u32,
    kernels: u32,
    out: &'a str,
) -> Result<PreparedResult<'a>, CommandFault>
    requires some { 1 ≤ kernels }
    requires few { kernels ≤ 64 }
    ensures ok { IfOk result (IsPreparedFor (gen_command seed kernels out.now) []) }
    ensures err { IfErr result (RejectsInputs (gen_command seed kernels out.now) []) }
{
    let file = workload(alloc, seed, kernels)?;
    let text = kernels_line(alloc, kernels)?;
    let line = text.into_bytes();
    let out = NamedWord {
        place: 3,
        name: out,
    };
    Ok(PreparedResult::written(alloc, out, file, line, None, None)?)
}

/// The line that tells how many kernels a generated file has.
fn kernels_line(alloc: Global, kernels: u32) -> Result<String, AllocError>
    ensures { IfOk result (λ line. string_bytes line ≡ kernels_text kernels) }
{
    format!(in alloc; "kernels {kernels}\n")
}

fn prepare_hex<'a>(
    alloc: Global,
    out: &'a str,
    texts: &[Vec<u8>],
) -> Result<PreparedResult<'a>, CommandFault>
    requires { length texts.now ≡ 1 }
    ensures ok { IfOk result (λ prepared. (f : List ℕ)
        → IsPreparedFor (hex_command f out.now) (contents texts.now) prepared) }
    ensures err { IfErr result (λ fault. (f : List ℕ)
        → RejectsInputs (hex_command f out.now) (contents texts.now) fault) }
{
    match hex_file(alloc, &texts[0]) {
        Ok(hex) => {
            let line = hex.line.into_bytes();
            let out = NamedWord {
                place: 2,
                name: out,
            };
            Ok(PreparedResult::written(alloc, out, hex.text, line, None, None)?)
        }
        Err(fault) => Err(fault),
    }
}

fn prepare_hex_check<'a>(
    alloc: Global,
    texts: &[Vec<u8>],
) -> Result<PreparedResult<'a>, CommandFault>
    requires { length texts.now ≡ 2 }
    ensures ok { IfOk result (λ prepared. (f h : List ℕ)
        → IsPreparedFor (hex_check_command f h) (contents texts.now) prepared) }
    ensures err { IfErr result (λ fault. (f h : List ℕ)
        → RejectsInputs (hex_check_command f h) (contents texts.now) fault) }
{
    match check_hex(alloc, &texts[0], &texts[1]) {
        Ok(()) => {
            let line = String::from_str(alloc, "same\n")?;
            let text = Text::plain(line.into_bytes());
            Ok(PreparedResult::printed(alloc, text, None, None, None)?)
        }
        Err(fault) => Err(fault),
    }
}
