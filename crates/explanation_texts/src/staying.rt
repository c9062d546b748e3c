use crate::notes::{Notes, Piece};

/// Where there is too little room.
#[derive(Clone, Copy)]
pub enum Room {
    Scratchpad,
    PatchRange,
}

/// Why something stays at home.
#[derive(Clone, Copy)]
pub enum StayingReason {
    /// Its block at an address has more bytes than a copy may have.
    TooLong {
        at: u32,
        bytes: u32,
    },
    /// Its block at an address is in no piece, since no register is free where control enters or leaves it.
    NoRegister {
        at: u32,
    },
    /// Its block at an address is in no piece, since nothing runs behind it.
    Stops {
        at: u32,
    },
    /// Its copy costs so much, and saves no more in the measured run: code saves at most so much.
    NoGain {
        cost: u64,
        saved: u64,
    },
    /// It needs so many bytes, and so many are left of those that are there; it may need more than these.
    NoRoom {
        room: Room,
        needed: u64,
        left: u64,
        have: u64,
    },
    /// There would be room, but not beside what was taken in its place.
    OthersSaveMore,
}

/// Code of a function, or an object, that stays.
#[derive(Clone, Copy)]
pub struct StayingItem<'a> {
    /// How many thousandths of the energy it costs.
    pub share: u64,
    pub name: &'a [u8],
    pub is_code: bool,
    pub reason: StayingReason,
}

/// What the reads and writes of what may not move cost.
pub const STAYING_REST: &str =
    "stays, with {} of the energy before: the stack and data that may not move";

/// What stays, and why.
pub fn say_staying(notes: &mut Notes, item: &StayingItem) {
    let words = if item.is_code {
        "stays, with {} of the energy before: code of {}: "
    } else {
        "stays, with {} of the energy before: {}: "
    };
    notes.begin(words, &[Piece::Percent(item.share), Piece::Name(item.name)]);
    put_reason(notes, item);
    notes.end("");
}

fn put_reason(notes: &mut Notes, item: &StayingItem) {
    match item.reason {
        StayingReason::TooLong { at, bytes } => notes.put(
            "its block at {} has {} bytes, and a copy may have 4096",
            &[Piece::Hex(at), Piece::Number(u64::from(bytes))],
        ),
        StayingReason::NoRegister { at } => notes.put(
            "its block at {} can't be copied, since no register is free where it is entered or left; where a switch goes by a table, -fno-jump-tables may free one",
            &[Piece::Hex(at)],
        ),
        StayingReason::Stops { at } => notes.put(
            "its block at {} can't be copied, since the program or the code ends with it",
            &[Piece::Hex(at)],
        ),
        StayingReason::NoGain { cost, saved } => put_no_gain(notes, item.is_code, cost, saved),
        StayingReason::NoRoom {
            room,
            needed,
            left,
            have,
        } => put_no_room(notes, room, needed, left, have),
        StayingReason::OthersSaveMore => {
            notes.put("what was taken in its place saves more", &[])
        }
    }
}

/// What a copy costs and saves, and from how many repetitions of the run on it pays, as far as these alone tell.
fn put_no_gain(notes: &mut Notes, is_code: bool, cost: u64, saved: u64) {
    let times = cost.checked_div(saved);
    let words = match (times, is_code) {
        (None, _) => "to copy it costs {}, and it saves nothing in this run",
        (Some(0), true) =>
            "to copy it costs {}, and it saves at most {} in this run, less what control pays to enter and leave it",
        (Some(0), false) => "to copy it costs {}, and it saves {} in this run",
        (Some(_), true) =>
            "to copy it costs {}, and it saves at most {} in this run: it pays not before {} such runs",
        (Some(_), false) =>
            "to copy it costs {}, and it saves {} in this run: it pays from {} such runs on",
    };
    let runs = times.unwrap_or(0).saturating_add(1);
    notes.put(
        words,
        &[
            Piece::Number(cost),
            Piece::Number(saved),
            Piece::Number(runs),
        ],
    );
}

/// How many bytes are needed and left of so many, and with how many in all there would be room.
fn put_no_room(notes: &mut Notes, room: Room, needed: u64, left: u64, have: u64) {
    let name = Piece::Text(match room {
        Room::Scratchpad => "scratchpad",
        Room::PatchRange => "patch range",
    });
    if needed > have {
        notes.put(
            "it needs {} bytes of the {}, and it has {}",
            &[Piece::Number(needed), name, Piece::Number(have)],
        );
        return;
    }
    let all = have.saturating_add(needed.saturating_sub(left));
    notes.put(
        "it needs {} bytes of the {}, and {} are left: {} in all would do",
        &[
            Piece::Number(needed),
            name,
            Piece::Number(left),
            Piece::Number(all),
        ],
    );
}
