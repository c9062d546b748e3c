ghost use Rattle.std.specs.Prelude.{◌≡◌, ◌++◌, ◌∷◌, [], ℕ, List, IfOk, IfErr, length};
ghost use Rattle.command_language.specs.Command.{mix_command, check_mix_command};
ghost use Rattle.command_files.specs.Reading.{contents};
ghost use Rattle.command_line.specs.{Listing.{listed_names, third}, ListedTexts.{Lists}, Meaning.{RejectsInputs}, InputTexts.{inputs_in}, Performing.{IsPreparedFor}};

use crate::check_mix_file::check_mix_file;
use crate::delivery::PreparedResult;
use crate::input_texts::InputTexts;
use crate::mix_file::mix_file;
use crate::mix_inputs::{ListedTexts, weighted_texts};
use command_language::{CommandFault, read_mix};
use printed_lines::Text;
use shelf_io::Progress;
use std::alloc::Global;

/// Makes the result of relinking for what a mix lists.
pub fn prepare_mix<'a>(
    alloc: Global,
    out: &'a str,
    cert: &'a str,
    inputs: &InputTexts<'a>,
    progress: &dyn Progress,
) -> Result<PreparedResult<'a>, CommandFault>
    requires texts { length inputs.now.texts.now ≡ 3 }
    requires listed { length inputs.now.listed.now ≡ length (listed_names (cert.now ∷ out.now ∷ []) (third (contents inputs.now.texts.now))) }
    ensures ok { IfOk result (λ prepared. (f b m : List ℕ)
        → IsPreparedFor (mix_command f b m out.now cert.now) (inputs_in inputs.now) prepared) }
    ensures err { IfErr result (λ fault. (f b m : List ℕ)
        → RejectsInputs (mix_command f b m out.now cert.now) (inputs_in inputs.now) fault) }
{
    match read_mix(alloc, &inputs.texts[2], &[cert, out]) {
        Ok(lines) => {
            let texts = inputs.listed;
            let listed = ListedTexts { lines, texts };
            match mixed_result(alloc, out, cert, inputs.texts, &listed, progress) {
                Ok(prepared) => Ok(prepared),
                Err(fault) => Err(fault),
            }
        }
        Err(fault) => Err(CommandFault::from(fault)),
    }
}

/// Makes it of the lines of the mix.
fn mixed_result<'a>(
    alloc: Global,
    out: &'a str,
    cert: &'a str,
    texts: &'a [Vec<u8>],
    listed: &ListedTexts<'_>,
    progress: &dyn Progress,
) -> Result<PreparedResult<'a>, CommandFault>
    requires texts { length texts.now ≡ 3 }
    requires listed { Lists (cert.now ∷ out.now ∷ []) (third (contents texts.now)) listed.now }
    ensures ok { IfOk result (λ prepared. (f b m : List ℕ)
        → IsPreparedFor (mix_command f b m out.now cert.now) (contents texts.now ++ contents listed.now.texts.now) prepared) }
    ensures err { IfErr result (λ fault. (f b m : List ℕ)
        → RejectsInputs (mix_command f b m out.now cert.now) (contents texts.now ++ contents listed.now.texts.now) fault) }
{
    let inputs = weighted_texts(alloc, &listed.lines, listed.texts)?;
    match mix_file(alloc, &texts[0], &texts[1], &inputs, progress) {
        Ok(made) => Ok(PreparedResult::relinked(alloc, out, cert, made)?),
        Err(fault) => Err(fault),
    }
}

/// Makes the report on a certificate for what a mix lists.
pub fn prepare_check_mix<'a>(
    alloc: Global,
    inputs: &InputTexts<'a>,
    progress: &dyn Progress,
) -> Result<PreparedResult<'a>, CommandFault>
    requires texts { length inputs.now.texts.now ≡ 4 }
    requires listed { length inputs.now.listed.now ≡ length (listed_names [] (third (contents inputs.now.texts.now))) }
    ensures ok { IfOk result (λ prepared. (f b m c : List ℕ)
        → IsPreparedFor (check_mix_command f b m c) (inputs_in inputs.now) prepared) }
    ensures err { IfErr result (λ fault. (f b m c : List ℕ)
        → RejectsInputs (check_mix_command f b m c) (inputs_in inputs.now) fault) }
{
    match read_mix(alloc, &inputs.texts[2], &[]) {
        Ok(lines) => {
            let texts = inputs.listed;
            let listed = ListedTexts { lines, texts };
            match checked_result(alloc, inputs.texts, &listed, progress) {
                Ok(prepared) => Ok(prepared),
                Err(fault) => Err(fault),
            }
        }
        Err(fault) => Err(CommandFault::from(fault)),
    }
}

/// Makes it of the lines of the mix.
fn checked_result<'a>(
    alloc: Global,
    texts: &'a [Vec<u8>],
    listed: &ListedTexts<'_>,
    progress: &dyn Progress,
) -> Result<PreparedResult<'a>, CommandFault>
    requires texts { length texts.now ≡ 4 }
    requires listed { Lists [] (third (contents texts.now)) listed.now }
    ensures ok { IfOk result (λ prepared. (f b m c : List ℕ)
        → IsPreparedFor (check_mix_command f b m c) (contents texts.now ++ contents listed.now.texts.now) prepared) }
    ensures err { IfErr result (λ fault. (f b m c : List ℕ)
        → RejectsInputs (check_mix_command f b m c) (contents texts.now ++ contents listed.now.texts.now) fault) }
{
    let inputs = weighted_texts(alloc, &listed.lines, listed.texts)?;
    match check_mix_file(alloc, &texts[0], &texts[1], &inputs, &texts[3], progress) {
        Ok(checked) => {
            let text = Text::plain(checked.report.into_bytes());
            let chosen = Some(checked.chosen);
            let opened = Some(checked.opened);
            Ok(PreparedResult::printed(alloc, text, None, chosen, opened)?)
        }
        Err(fault) => Err(fault),
    }
}
