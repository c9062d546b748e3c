ghost use Rattle.std.specs.Prelude.{◌≡◌, ◌≤◌, IfOk, length};
ghost use Rattle.certificate_checker.specs.{Shows.{in_32_bits}, Reading.{GivesAlways, place, broken, cut_off, below_all, number_in, entry_at, one_byte, mark_at, flag_at}};

use crate::digits::{NumberFault, number};
use crate::fault::CertFault;

/// Where in the text a number stands.
#[derive(Clone, Copy)]
pub(crate) enum Part {
    Head,
    Node,
}

/// The place of the first of these bytes, which end a text of `total` bytes.
#[tactic(auto, unfolding(crate::specs::Reading::place, crate::specs::Shows::in_32_bits))]
pub(crate) fn place(total: usize, bytes: &[u8]) -> u32
    ensures { result ≡ place total bytes.now }
{
    total.saturating_sub(bytes.len()).min(0xffff_ffff) as u32
}

#[tactic(auto, unfolding(crate::specs::Shows::in_32_bits))]
pub(crate) fn cut_off(total: usize) -> CertFault
    ensures { result ≡ cut_off total }
{
    CertFault::Truncated {
        at: total.min(0xffff_ffff) as u32,
    }
}

/// What is wrong with a tag below the last level.
pub(crate) fn below_all(total: usize, bytes: &[u8], tag: u8) -> CertFault
    ensures { result ≡ below_all total bytes.now tag }
{
    let at = place(total, bytes);
    if tag < 4 {
        CertFault::TooDeep { at }
    } else {
        CertFault::BadNode { at }
    }
}

fn broken(part: Part, at: u32) -> CertFault
    ensures { result ≡ broken part at }
{
    match part {
        Part::Head => CertFault::BadHead { at },
        Part::Node => CertFault::BadNode { at },
    }
}

/// A number from `least` to `most`, and the bytes behind it.
#[tactic(auto, unfolding(crate::specs::Reading::number_in))]
pub(crate) fn number_in(
    part: Part,
    least: u64,
    most: u64,
    total: usize,
    bytes: &[u8],
) -> Result<(u64, &[u8]), CertFault>
    ensures gives { GivesAlways (λ x. (x.0, x.1.now)) result (number_in part least most total bytes.now) }
    ensures most { IfOk result (λ x. x.0 ≤ most) }
{
    match number(bytes) {
        Err(NumberFault::Cut) => Err(cut_off(total)),
        Err(NumberFault::Bad) => Err(broken(part, place(total, bytes))),
        Ok((number, rest)) => {
            if least <= number && number <= most {
                Ok((number, rest))
            } else {
                Err(broken(part, place(total, bytes)))
            }
        }
    }
}

/// A number from `least` on of 32 bits, and the bytes behind it.
pub(crate) fn small_number(
    part: Part,
    least: u64,
    total: usize,
    bytes: &[u8],
) -> Result<(u32, &[u8]), CertFault>
    ensures { GivesAlways (λ x. (x.0, x.1.now)) result (number_in part least 4294967295 total bytes.now) }
{
    match number_in(part, least, 0xffff_ffff, total, bytes) {
        Err(fault) => Err(fault),
        Ok((number, rest)) => Ok((number as u32, rest)),
    }
}

/// A row from `least` on and its multiplier, and the bytes behind them.
#[tactic(auto, unfolding(crate::specs::Reading::entry_at))]
pub(crate) fn entry(
    least: u64,
    total: usize,
    bytes: &[u8],
) -> Result<((u32, u64), &[u8]), CertFault>
    ensures { GivesAlways (λ x. (x.0, x.1.now)) result (entry_at least total bytes.now) }
{
    match small_number(Part::Node, least, total, bytes) {
        Err(fault) => Err(fault),
        Ok((row, rest)) => match number_in(Part::Node, 0, u64::MAX, total, rest) {
            Err(fault) => Err(fault),
            Ok((multiplier, rest)) => Ok(((row, multiplier), rest)),
        },
    }
}

/// The bytes behind one that is given.
fn one_byte(wanted: u8, total: usize, bytes: &[u8]) -> Result<&[u8], CertFault>
    ensures { GivesAlways (λ x. x.now) result (one_byte wanted total bytes.now) }
{
    match bytes {
        [] => Err(cut_off(total)),
        [first, rest @ ..] => {
            if *first == wanted {
                Ok(rest)
            } else {
                Err(CertFault::BadHead {
                    at: place(total, bytes),
                })
            }
        }
    }
}

/// The bytes behind the mark.
#[tactic(auto, unfolding(crate::specs::Reading::mark_at))]
pub(crate) fn mark(total: usize, bytes: &[u8]) -> Result<&[u8], CertFault>
    ensures { GivesAlways (λ x. x.now) result (mark_at total bytes.now) }
{
    let rest = one_byte(0x53, total, bytes)?;
    let rest = one_byte(0x50, total, rest)?;
    let rest = one_byte(0x43, total, rest)?;
    one_byte(0x31, total, rest)
}

/// A byte that is 0 or 1, and the bytes behind it.
pub(crate) fn flag(total: usize, bytes: &[u8]) -> Result<(bool, &[u8]), CertFault>
    ensures { GivesAlways (λ x. (x.0, x.1.now)) result (flag_at total bytes.now) }
{
    match bytes {
        [] => Err(cut_off(total)),
        [0, rest @ ..] => Ok((false, rest)),
        [1, rest @ ..] => Ok((true, rest)),
        [_, ..] => Err(CertFault::BadHead {
            at: place(total, bytes),
        }),
    }
}
