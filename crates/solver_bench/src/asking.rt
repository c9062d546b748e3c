ghost use Rattle.certificate_checker.specs.Rooms.{RoomFits};

use crate::certificates::{certificate_bytes, checked, searched};
use crate::reading::{read_choice, small_number};
use crate::solving::{chosen, filled, least, solution};
use anyhow::Result;
use certificate_checker::Room;
use placement_programme::Programme;
use std::alloc::Global;
use std::rt::Files;

/// The answer of the solver to a question: `least`, `solve NODES`, `choose NODES`, `trees NODES`, `fill` or
/// `value on|off NUMBERS`.
fn solver_answer(alloc: Global, p: &Programme, key: &str, words: &str) -> Result<String> {
    match key {
        "least" => least(alloc, p),
        "fill" => filled(alloc, p),
        "value" => chosen(alloc, p, &read_choice(alloc, words)?),
        _ => solution(alloc, p, small_number(words)?, key),
    }
}

/// The answer to a question: one of the solver's, `search NODES`, `check BYTES` or `file NAME`, which checks the bytes
/// of a file.
fn answer(
    rt: &(impl Files + AllocGlobal),
    p: &Programme,
    room: &mut Room,
    question: &str,
) -> Result<String>
    requires { RoomFits p.now room.old }
    ensures { RoomFits p.now room.new }
{
    let (key, words) = question.split_once(' ').unwrap_or((question, ""));
    match key {
        "search" => searched(rt.alloc(), small_number(words)?, p, room),
        "check" | "file" => checked(rt.alloc(), &certificate_bytes(rt, key, words)?, p, room),
        _ => solver_answer(rt.alloc(), p, key, words),
    }
}

/// Tells the answers to the questions among some lines, each with its certificates in the same room.
fn tell_asked(
    rt: &(impl Files + Print + AllocGlobal),
    p: &Programme,
    room: &mut Room,
    lines: &str,
) -> Result<()>
    requires { RoomFits p.now room.old }
{
    for line in lines.lines() {
        if let Some(question) = line.strip_prefix("ask ") {
            println!(rt; "{}", answer(rt, p, room, question)?)?;
        }
    }
    Ok(())
}

/// Answers the questions of a programme's text, in one room for its certificates; with no question, solves it.
pub(crate) fn tell_answers(
    rt: &(impl Files + Print + AllocGlobal),
    p: &Programme,
    text: &str,
) -> Result<()> {
    let mut room = Room::new(rt.alloc(), p)?;
    let is_asked = text.contains("\nask ");
    tell_asked(rt, p, &mut room, if is_asked { text } else { "ask least" })
}
