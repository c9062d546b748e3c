ghost use Rattle.certificate_checker.specs.Rooms.{RoomFits};

use crate::reading::count;
use anyhow::{Context, Result};
use branch_bound::{Round, certify};
use certificate_checker::{CertFault, Certificate, Room, Verdict, check_text, write_tree};
use num_traits::Num;
use placement_programme::Programme;
use std::alloc::Global;
use std::fs;
use std::rt::Files;

/// What a word spells: a byte in hexadecimal, and how many times it is there, as `BYTE*N`.
fn spelled(word: &str) -> Result<(u8, u32)> {
    let (digits, times) = word.split_once('*').unwrap_or((word, "1"));
    let byte = <u8 as Num>::from_str_radix(digits, 16).context("a word is no byte")?;
    Ok((byte, count(times)?))
}

fn spelled_bytes(alloc: Global, words: &str) -> Result<Vec<u8>> {
    let mut bytes = Vec::new(alloc);
    for word in words.split_whitespace() {
        let (byte, times) = spelled(word)?;
        bytes.resize(bytes.len().saturating_add(times as usize), byte)?;
    }
    Ok(bytes)
}

/// The bytes of the file that the words name (`file`), or those that they spell.
pub(crate) fn certificate_bytes(
    rt: &(impl Files + AllocGlobal),
    key: &str,
    words: &str,
) -> Result<Vec<u8>> {
    match key {
        "file" => Ok(fs::read(rt, words)?),
        _ => spelled_bytes(rt.alloc(), words),
    }
}

/// What was found, and what a check says of its certificate's text.
fn told_certificate(
    alloc: Global,
    nodes: u64,
    c: &Certificate,
    p: &Programme,
    room: &mut Room,
) -> Result<String>
    requires { RoomFits p.now room.old }
    ensures { RoomFits p.now room.new }
{
    let verdict = check_text(p, &write_tree(alloc, c)?, room);
    let (on, take) = (c.choice.on, &c.choice.take);
    Ok(format!(in alloc; "{nodes} nodes: on {on} {take:?}, {verdict:?}")?)
}

/// What is found with so many nodes, and what a check says of its certificate's text.
pub(crate) fn searched(alloc: Global, nodes: u64, p: &Programme, room: &mut Room) -> Result<String>
    requires { RoomFits p.now room.old }
    ensures { RoomFits p.now room.new }
{
    match certify(alloc, p, nodes)? {
        Round::Certified(c) => told_certificate(alloc, nodes, &c, p, room),
        Round::Unfinished(_) => Ok(format!(in alloc; "{nodes} nodes: nothing")?),
    }
}

/// The verdict on so many bytes. An optimal or best found certificate has its choice told.
fn told_verdict(
    alloc: Global,
    len: usize,
    verdict: &Result<Verdict, CertFault>,
    take: &[u32],
) -> Result<String> {
    Ok(match verdict {
        Ok(Verdict::Optimal | Verdict::BestFound) => {
            format!(in alloc; "{len} bytes: {verdict:?}\n  {take:?}")?
        }
        _ => format!(in alloc; "{len} bytes: {verdict:?}")?,
    })
}

/// What a certificate's bytes are answered.
pub(crate) fn checked(alloc: Global, bytes: &[u8], p: &Programme, room: &mut Room) -> Result<String>
    requires { RoomFits p.now room.old }
    ensures { RoomFits p.now room.new }
{
    let verdict = check_text(p, bytes, room);
    told_verdict(alloc, bytes.len(), &verdict, &room.choice.take)
}
