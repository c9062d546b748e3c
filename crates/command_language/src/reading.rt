ghost use Rattle.std.specs.Prelude.{◌≡◌, ◌+◌, ◌-◌, ◌<◌, ◌≤◌, ◌==◌, not, ◌&&◌, true, false, [], map, bytes_eq, length, position, Some, None, MatchOption, IfOk, IfErr};
ghost use Rattle.std.specs.List.{list_any};
ghost use Rattle.command_language.specs.{Command.{value_of}, Lines.{ended_line, line_of, begins_with, are_within, has_length, is_weight, is_name, is_input_name, is_mix_line, broken_at, mix_lines, plain_input, names_of, TellsBroken}, Steps.{BreaksHere, StepsOver}};

use crate::numbers::digits_value;
use crate::parts::{MixFault, MixInput};
use std::alloc::Global;

/// The most lines of a mix.
const MOST_LINES: usize = 16;

/// The inputs that a text lists, in the order of its lines, where no line breaks a rule and none is a name that is
/// written.
///
/// The error is the place of the first line that does; `Memory` comes only where no memory was left.
pub fn read_mix<'a>(
    alloc: Global,
    text: &'a [u8],
    written: &[&str],
) -> Result<Vec<MixInput<'a>>, MixFault>
    ensures ok { IfOk result (λ inputs. (broken_at (names_of written.now) text.now ≡ None) × (map plain_input inputs.items ≡ mix_lines text.now)) }
    ensures err { IfErr result (TellsBroken (broken_at (names_of written.now) text.now)) }
{
    if text.is_empty() {
        return Err(MixFault::BadMix { at: 0 });
    }
    let mut inputs = Vec::new(alloc);
    let mut rest = text;
    while !rest.is_empty() {
        let Some((input, behind)) = next_input(rest, inputs.len(), written) else {
            let at = (text.len() - rest.len()) as u64;
            return Err(MixFault::BadMix { at });
        };
        inputs.push(input)?;
        rest = behind;
    }
    Ok(inputs)
}

/// The input of the first line of a text, behind `count` others, and the text behind it.
fn next_input<'a>(
    text: &'a [u8],
    count: usize,
    written: &[&str],
) -> Option<(MixInput<'a>, &'a [u8])>
    requires { 1 ≤ length text.now }
    ensures { MatchOption result
        (BreaksHere (names_of written.now) count text.now)
        (λ found. StepsOver (names_of written.now) count text.now (plain_input found.0) found.1.now) }
{
    if count >= MOST_LINES {
        return None;
    }
    let end = newline_place(text)?;
    let input = input_of(&text[..end], written)?;
    Some((input, &text[end + 1..]))
}

fn newline_place(text: &[u8]) -> Option<usize>
    ensures { result ≡ position (λ byte. byte == 10) text.now }
{
    text.iter().position(|byte| *byte == b'\n')
}

/// The input of a line, without its newline.
fn input_of<'a>(line: &'a [u8], written: &[&str]) -> Option<MixInput<'a>>
    ensures { MatchOption result
        (is_mix_line (names_of written.now) (ended_line line.now) ≡ false)
        (λ input. (is_mix_line (names_of written.now) (ended_line line.now) ≡ true) × (plain_input input ≡ line_of (ended_line line.now))) }
{
    let space = space_place(line)?;
    let weight = weight_of(&line[..space])?;
    let name = name_of(&line[space + 1..], written)?;
    Some(MixInput { weight, name })
}

fn space_place(line: &[u8]) -> Option<usize>
    ensures { result ≡ position (λ byte. byte == 32) line.now }
{
    line.iter().position(|byte| *byte == b' ')
}

/// The weight that 1 to 4 digits spell.
fn weight_of(digits: &[u8]) -> Option<u32>
    ensures { MatchOption result (is_weight digits.now ≡ false) (λ weight. (is_weight digits.now ≡ true) × (weight ≡ value_of digits.now)) }
{
    if !are_weight_digits(digits) {
        return None;
    }
    let weight = digits_value(digits);
    if weight <= 1000 {
        Some(weight as u32)
    } else {
        None
    }
}

fn are_weight_digits(digits: &[u8]) -> bool
    ensures { result ≡ (has_length 1 4 digits.now && are_within 48 57 digits.now && not (begins_with 48 digits.now)) }
{
    has_length(digits, 1, 4) && are_within(digits, b'0', b'9') && !begins_with(digits, b'0')
}

/// The name that some bytes are, if it may be that of an input.
fn name_of<'a>(bytes: &'a [u8], written: &[&str]) -> Option<&'a str>
    ensures { MatchOption result
        (is_input_name (names_of written.now) bytes.now ≡ false)
        (λ name. (is_input_name (names_of written.now) bytes.now ≡ true) × (name.now ≡ bytes.now)) }
{
    if is_input_name(bytes, written) {
        match std::str::from_utf8(bytes) {
            Ok(name) => Some(name),
            Err(_) => None,
        }
    } else {
        None
    }
}

fn is_input_name(bytes: &[u8], written: &[&str]) -> bool
    ensures { result ≡ is_input_name (names_of written.now) bytes.now }
{
    is_name(bytes) && !is_written(bytes, written)
}

fn is_name(bytes: &[u8]) -> bool
    ensures { result ≡ is_name bytes.now }
{
    has_length(bytes, 1, 255) && are_within(bytes, b'!', b'~') && !begins_with(bytes, b'-')
}

fn is_written(name: &[u8], written: &[&str]) -> bool
    ensures { result ≡ list_any (λ other. bytes_eq other.now name.now) written.now }
{
    written.iter().any(|other| other.as_bytes() == name)
}

fn has_length(bytes: &[u8], low: usize, high: usize) -> bool
    ensures { result ≡ has_length low high bytes.now }
{
    low <= bytes.len() && bytes.len() <= high
}

fn are_within(bytes: &[u8], low: u8, high: u8) -> bool
    ensures { result ≡ are_within low high bytes.now }
{
    bytes.iter().all(|byte| low <= *byte && *byte <= high)
}

fn begins_with(bytes: &[u8], wanted: u8) -> bool
    ensures { result ≡ begins_with wanted bytes.now }
{
    match bytes {
        [] => false,
        [first, ..] => *first == wanted,
    }
}
