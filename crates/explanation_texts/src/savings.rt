use crate::cures::before_name;
use crate::notes::{Notes, Piece};
use crate::places::put_place;
use crate::unchecked::UncheckedFile;

/// What a saving is of.
#[derive(Clone, Copy)]
pub enum Measured {
    /// A run to its end.
    Run,
    /// The first steps of a run that went on.
    Steps,
    /// The runs on the inputs of a mix.
    Mix,
}

/// How many thousandths of the energy a choice saves.
pub fn say_saved(notes: &mut Notes, thousandths: u64, of: Measured) {
    let words = match of {
        Measured::Run => "saves {} of the energy of the measured run",
        Measured::Steps =>
            "saves {} of the energy of the measured steps, and may save less of the whole run",
        Measured::Mix => "saves {} of the energy of the listed runs",
    };
    notes.say(words, &[Piece::Percent(thousandths)]);
}

/// When an item stands in the scratchpad.
#[derive(Clone, Copy)]
pub enum Standing {
    Throughout,
    /// While this region is current.
    InRegion(u32),
    /// While either region of this pair of twins is current.
    InTwins(u32),
}

/// What moved.
#[derive(Clone, Copy)]
pub enum MovedPart<'a> {
    /// Code, with its address in the program's file and its bytes there.
    Code { home: u32, bytes: u32 },
    Object { name: &'a [u8], bytes: u32 },
}

/// An item that moved, and thousandths of the energy.
#[derive(Clone, Copy)]
pub struct MovedItem<'a> {
    pub standing: Standing,
    pub part: MovedPart<'a>,
    /// What it saves.
    pub saved: u64,
    /// What it costs before, where one run was measured.
    pub before: Option<u64>,
}

/// An item that moved, and what that saves.
pub fn say_moved_item(notes: &mut Notes, item: &MovedItem, file: &UncheckedFile) {
    begin_standing(notes, item.standing);
    put_part(notes, file, item.part);
    match item.before {
        Some(before) => notes.put(
            ": {} of the energy before, {} after",
            &[
                Piece::Percent(before),
                Piece::Percent(before.saturating_sub(item.saved)),
            ],
        ),
        None => notes.put(": saves {}", &[Piece::Percent(item.saved)]),
    }
    notes.end("");
}

/// Begins a line by when something stands in the scratchpad.
fn begin_standing(notes: &mut Notes, standing: Standing) {
    let (words, number) = match standing {
        Standing::Throughout => ("throughout, ", 0),
        Standing::InRegion(region) => ("in region {}, ", region),
        Standing::InTwins(pair) => ("in both regions of pair {}, ", pair),
    };
    notes.begin(words, &[Piece::Number(u64::from(number))]);
}

fn put_part(notes: &mut Notes, file: &UncheckedFile, part: MovedPart) {
    match part {
        MovedPart::Code { home, bytes } => {
            notes.put("{} bytes of code", &[Piece::Number(u64::from(bytes))]);
            put_place(notes, file, home)
        }
        MovedPart::Object { name, bytes } => notes.put(
            "{} bytes of {}",
            &[Piece::Number(u64::from(bytes)), Piece::Name(name)],
        ),
    }
}

/// How many more items moved, and how many thousandths of the energy they save.
pub const MORE_ITEMS: &str = "{} more items that moved save {}";

/// How many thousandths of the energy are spent by a result whatever moves in it.
pub const FIXED_COST: &str = "the start of the program and changes of region cost {}";

/// How many bytes of some room are used.
#[derive(Clone, Copy)]
pub struct Used {
    pub bytes: u64,
    pub of: u64,
}

/// Of the scratchpad, where nothing is overlaid.
pub const SCRATCHPAD_USED: &str = "{} of {} bytes of the scratchpad are used";

/// Of the patch range, behind what each result has there.
pub const PATCH_USED: &str = "{} of {} bytes of the patch range are used for what moved";

/// How full some room is, with words of what it is.
pub fn say_room(notes: &mut Notes, used: Used, words: &str) {
    notes.say(words, &[Piece::Number(used.bytes), Piece::Number(used.of)]);
}

/// How full the scratchpad is before a region is entered, and while each region is current, in order.
pub fn say_overlay_room(notes: &mut Notes, used: &[Used]) {
    notes.begin("of the scratchpad are used", &[]);
    for (region, used) in used.iter().enumerate() {
        notes.put(
            "{}{} of {} bytes in region {}",
            &[
                Piece::Text(before_name(region, " ")),
                Piece::Number(used.bytes),
                Piece::Number(used.of),
                Piece::Number(region as u64),
            ],
        );
    }
    notes.end("");
}
