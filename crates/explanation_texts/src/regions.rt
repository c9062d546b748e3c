use crate::cures::before_name;
use crate::notes::{Notes, Piece};
use crate::places::put_place;
use crate::unchecked::UncheckedFile;
use board_config::Range;

/// A place by which control enters a region, and can't be led there.
#[derive(Clone, Copy)]
pub struct Barrier<'a> {
    /// The function.
    pub function: &'a [u8],
    /// The address of the block.
    pub leader: u32,
}

/// The functions that the board's driver calls make no regions.
pub const IDLE_DRIVER: &str =
    "no region comes of what `driver` of the board, {}, calls\nfirst: let `driver` be the function that calls the phases one after the other, or list their functions by `regions`";

/// How many bytes of the patch range a result takes, where that is most of them, and how many it has.
pub const FULL_PATCH: &str =
    "the result takes {} of the {} bytes of `patch` of the board: a larger range may let more move";

/// A region that the board lists became none.
pub fn say_lost_region(notes: &mut Notes, file: &UncheckedFile, number: u64, barriers: &[Barrier]) {
    notes.begin(
        "region {} of the board became none; the other regions of the list work without it\n",
        &[Piece::Number(number)],
    );
    if barriers.is_empty() {
        notes.end("  the first instruction where control enters it can't be led there");
        return;
    }
    for barrier in barriers {
        notes.put("  control enters it", &[]);
        put_place(notes, file, barrier.leader);
        notes.put(", where no register from x5 to x31 is dead\n", &[]);
    }
    put_left_out(notes, barriers);
    notes.end(", and keep the others");
}

/// Goes on with a line by the functions to be left out of a region.
fn put_left_out(notes: &mut Notes, barriers: &[Barrier]) {
    notes.put("first: leave out of its list", &[]);
    for (place, barrier) in barriers.iter().enumerate() {
        let before = before_name(place, " ");
        notes.put(
            "{}{}",
            &[Piece::Text(before), Piece::Name(barrier.function)],
        );
    }
}

/// Calls of a run from a piece of code that moved to a block of the same piece that is no entry of it.
#[derive(Clone, Copy)]
pub struct InwardCalls {
    /// The address of the first of them in the program.
    pub at: u32,
    /// Where it leads.
    pub target: u32,
    /// How many the run makes.
    pub count: u64,
    /// The line of the mix that lists its input, where one does.
    pub line: Option<u64>,
    /// What OUT pays in the run, and what it does by the model, where that is known.
    pub paid: Option<(u64, u64)>,
    /// Whether their cure was not told yet.
    pub is_first: bool,
}

/// The inward calls of a run, and what they cost.
pub fn say_inward(notes: &mut Notes, file: &UncheckedFile, calls: &InwardCalls) {
    let count = Piece::Number(calls.count);
    match calls.line {
        Some(line) => notes.begin(
            "the run on line {} of MIX makes {} inward calls",
            &[Piece::Number(line), count],
        ),
        None => notes.begin("the measured run makes {} inward calls", &[count]),
    }
    match calls.paid {
        Some((paid, after)) => notes.put(
            ": OUT pays {}, not {}",
            &[Piece::Number(paid), Piece::Number(after)],
        ),
        None => notes.put(", so OUT may pay more than `after`", &[]),
    }
    notes.put(
        if calls.line.is_some() {
            ": relink on this input alone tells how much such calls cost\n  code that moved calls,"
        } else {
            "\n  code that moved calls,"
        },
        &[],
    );
    put_place(notes, file, calls.at);
    notes.put(", what stays at home,", &[]);
    put_place(notes, file, calls.target);
    notes.end(if calls.is_first {
        "\nfirst: make what is called an entry: .type LABEL, @function, in front of its label"
    } else {
        ""
    });
}
