use crate::cures::{ELF_FILE, text_at};
use crate::notes::{Notes, Piece};
use board_config::BoardFault;
use std::alloc::{AllocError, Global};

/// The keys by their numbers, from 1 on. Those of the table `price` follow the table.
const KEYS: [&str; 20] = [
    "main",
    "spm",
    "patch",
    "areas",
    "price",
    "fix",
    "bss",
    "grain",
    "fence_i",
    "main_fetch",
    "main_read",
    "main_write",
    "spm_fetch",
    "spm_read",
    "spm_write",
    "driver",
    "regions",
    "steps",
    "nodes",
    "twins",
];

/// What each key may be, in their order.
const VALUES: [&str; 20] = [
    "a range, as [0x10000, 0x80000]",
    "a range of multiples of `grain`, as [0x1000000, 4096]",
    "a range of multiples of 64, as [0x90000, 0x10000]",
    "at most 16 ranges, as [[0x20000000, 0x1000]]",
    "a table of six prices, under the line [price]",
    "names in quotes, as [\"NAME\"]",
    "\"fixed\" or \"movable\", with the quotes",
    "16, 32 or 64",
    "true or false",
    "a number from 0 to 10000",
    "a number from 0 to 10000",
    "a number from 0 to 10000",
    "a number from 0 to 10000",
    "a number from 0 to 10000",
    "a number from 0 to 10000",
    "the name of a function, in quotes",
    "at most 8 lists of names of functions, as [[\"NAME\"], [\"NAME\"]]",
    "a number from 1 to 1000000000",
    "a number from 1 to 10000000",
    "true or false",
];

/// How an ELF file begins.
const ELF_MAGIC: &[u8] = b"\x7fELF";

/// A line of a text, without its newline.
#[derive(Clone, Copy)]
struct Line<'a> {
    /// Its number, from 1 on.
    number: u64,
    /// Where it begins.
    start: usize,
    text: &'a [u8],
}

/// Why a text is no board, and the line of it.
pub fn explain_board(notes: &mut Notes, text: &[u8], fault: &BoardFault) {
    match fault {
        BoardFault::NotToml => say_syntax(notes, text),
        BoardFault::Missing { key } => notes.say(
            "the table [price] of the board lacks {}: give all six prices, or no table",
            &[Piece::Name(key_name(*key))],
        ),
        BoardFault::WrongType { key } | BoardFault::OutOfRange { key } => {
            say_wrong_value(notes, text, *key)
        }
        BoardFault::UnknownKey { name } => {
            say_line_of_key(notes, text, name.as_bytes());
            notes.say(
                "the board has no key {}; docs/BOARD.md has all keys",
                &[Piece::Name(name.as_bytes())],
            )
        }
        BoardFault::Memory => {}
    }
}

/// The name of a key by its number.
fn key_name(key: u32) -> &'static [u8] {
    text_at(&KEYS, key.saturating_sub(1)).as_bytes()
}

/// The line of a key that has a value that it may not have, and what it may be.
fn say_wrong_value(notes: &mut Notes, text: &[u8], key: u32) {
    let name = key_name(key);
    say_line_of_key(notes, text, name);
    let value = text_at(&VALUES, key.saturating_sub(1));
    notes.say("{} is to be {}", &[Piece::Name(name), Piece::Text(value)]);
}

/// Where a text is no TOML, and why.
fn say_syntax(notes: &mut Notes, text: &[u8]) {
    if text.starts_with(ELF_MAGIC) {
        notes.say_words(ELF_FILE);
        return;
    }
    let Err(error) = toml::table_from_slice(notes.alloc(), text) else {
        return;
    };
    if let Some(span) = error.span() {
        say_position(notes, text, span.start, error.message());
    }
    notes.say_words("a text stands in quotes, as bss = \"movable\"; docs/BOARD.md has all keys");
}

fn say_position(notes: &mut Notes, text: &[u8], place: usize, reason: &str) {
    let Some(line) = line_of(text, Sought::Place(place)) else {
        return;
    };
    notes.say(
        "line {}, column {} of the board is no TOML: {}",
        &[
            Piece::Number(line.number),
            Piece::Number((place.saturating_sub(line.start) as u64).saturating_add(1)),
            Piece::Text(reason),
        ],
    );
    say_line(notes, &line);
}

fn say_line_of_key(notes: &mut Notes, text: &[u8], key: &[u8]) {
    if let Some(line) = line_of(text, Sought::Key(key)) {
        say_line(notes, &line);
    }
}

fn say_line(notes: &mut Notes, line: &Line) {
    notes.say(
        "line {} of the board: {}",
        &[Piece::Number(line.number), Piece::Name(line.text)],
    );
}

/// Which line of a text is looked for.
#[derive(Clone, Copy)]
enum Sought<'a> {
    /// The one that has the byte at a place, or that ends there.
    Place(usize),
    /// The first that begins with a key and an equals sign.
    Key(&'a [u8]),
}

/// The line of a text that is looked for.
fn line_of<'a>(text: &'a [u8], sought: Sought) -> Option<Line<'a>> {
    let mut number: u64 = 1;
    let mut start: usize = 0;
    for end in 0..text.len().saturating_add(1) {
        match text.get(end) {
            Some(byte) if *byte != b'\n' => {}
            _ => {
                let line = text.get(start..end).unwrap_or_default();
                if is_sought(line, end, sought) {
                    return Some(Line {
                        number,
                        start,
                        text: line,
                    });
                }
                number = number.saturating_add(1);
                start = end.saturating_add(1);
            }
        }
    }
    None
}

/// Whether a line that ends at a place is looked for.
fn is_sought(line: &[u8], end: usize, sought: Sought) -> bool {
    match sought {
        Sought::Place(place) => place <= end,
        Sought::Key(key) => match line.trim_ascii_start().strip_prefix(key) {
            Some(rest) => rest.trim_ascii_start().starts_with(b"="),
            None => false,
        },
    }
}

/// Whether a board gives a key, by a line that begins with it.
pub fn gives_key(text: &[u8], key: &[u8]) -> bool {
    line_of(text, Sought::Key(key)).is_some()
}

/// The text of a board with further names in its list `fix`.
pub fn text_with_fixed(alloc: Global, text: &[u8], names: &[&[u8]]) -> Result<Vec<u8>, AllocError> {
    let place = place_in_list(text, b"fix");
    let kept = text.get(..place.unwrap_or_default()).unwrap_or_default();
    let mut changed = Notes::new(alloc);
    changed.add(kept);
    if place.is_none() {
        changed.add(b"fix = [");
    }
    for name in names {
        changed.put("{}, ", &[Piece::Quoted(name)]);
    }
    if place.is_none() {
        changed.add(b"]\n");
    }
    changed.add(text.get(kept.len()..).unwrap_or_default());
    changed.into_whole()
}

/// Where the names begin of a list that a board gives.
fn place_in_list(text: &[u8], key: &[u8]) -> Option<usize> {
    let line = line_of(text, Sought::Key(key))?;
    let mut place = line.start;
    for byte in line.text {
        place = place.saturating_add(1);
        if *byte == b'[' {
            return Some(place);
        }
    }
    None
}
