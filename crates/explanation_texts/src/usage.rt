use crate::notes::{Notes, Piece};

/// A command, as it is told to one who asks, and which of its words name what it reads. The command's own word is at
/// place 0.
#[derive(Clone, Copy)]
pub struct Command {
    word: &'static str,
    operands: &'static str,
    purpose: &'static str,
    /// The place of FILE.
    pub file: Option<usize>,
    /// The place of BOARD.
    pub board: Option<usize>,
    /// Whether it analyses FILE for BOARD.
    pub analyses: bool,
    /// The place of INPUT, where it measures the program of FILE.
    pub input: Option<usize>,
    /// The place of CERT, where it makes or checks that of one run.
    pub certificate: Option<usize>,
    /// The place of MIX, where it measures the program of FILE on the inputs that this lists.
    pub mix: Option<usize>,
    /// The place of what FILE is relinked to, where it writes that.
    pub result: Option<usize>,
    /// The place of a further ELF file that it reads.
    pub beside: Option<usize>,
    /// Whether it tells where the program's run is not paired.
    pub tells_pairing: bool,
    /// How many words behind its own name what it reads.
    pub reads: usize,
    /// The places of what it writes, in this order.
    pub writes: &'static [usize],
    /// What its numbers may be; empty where it has none.
    numbers: &'static str,
}

/// No command: it reads and writes nothing.
const NONE: Command = Command {
    word: "",
    operands: "",
    purpose: "",
    file: None,
    board: None,
    analyses: false,
    input: None,
    certificate: None,
    mix: None,
    result: None,
    beside: None,
    tells_pairing: false,
    reads: 0,
    writes: &[],
    numbers: "",
};

/// What commands have in common that analyse FILE for BOARD.
const ANALYSED: Command = Command {
    file: Some(1),
    board: Some(2),
    analyses: true,
    reads: 2,
    ..NONE
};

/// What commands have in common that also measure it on INPUT.
const MEASURED: Command = Command {
    input: Some(3),
    reads: 3,
    ..ANALYSED
};

const COMMANDS: [Command; 13] = [
    Command {
        word: "run",
        operands: "FILE BOARD INPUT OUT",
        purpose: "runs FILE, and writes under OUT what it writes",
        file: Some(1),
        board: Some(2),
        reads: 3,
        writes: &[4],
        ..NONE
    },
    Command {
        word: "relink",
        operands: "FILE BOARD INPUT OUT CERT",
        purpose: "moves what saves energy, and writes the new file under OUT",
        certificate: Some(5),
        result: Some(4),
        tells_pairing: true,
        writes: &[5, 4],
        ..MEASURED
    },
    Command {
        word: "profile",
        operands: "FILE BOARD INPUT",
        purpose: "runs FILE, and counts blocks, reads and writes",
        ..MEASURED
    },
    Command {
        word: "compare",
        operands: "FILE RESULT BOARD INPUT",
        purpose: "runs FILE beside what it was relinked to",
        board: Some(3),
        input: Some(4),
        beside: Some(2),
        tells_pairing: true,
        reads: 4,
        ..MEASURED
    },
    Command {
        word: "check",
        operands: "FILE BOARD INPUT CERT",
        purpose: "checks a certificate that relink wrote",
        certificate: Some(4),
        tells_pairing: true,
        reads: 4,
        ..MEASURED
    },
    Command {
        word: "paid",
        operands: "FILE BOARD INPUT CERT",
        purpose: "tells what a certificate's choice costs, and what its file pays",
        reads: 4,
        ..MEASURED
    },
    Command {
        word: "trace",
        operands: "FILE BOARD INPUT CERT COUNT OUT",
        purpose: "writes under OUT how FILE and its result run step by step",
        reads: 4,
        writes: &[6],
        numbers: "COUNT is a number of 1 to 6 digits from 1 to 100000",
        ..MEASURED
    },
    Command {
        word: "mix",
        operands: "FILE BOARD MIX OUT CERT",
        purpose: "relinks FILE for several inputs, which MIX lists with weights",
        mix: Some(3),
        result: Some(4),
        tells_pairing: true,
        reads: 3,
        writes: &[5, 4],
        ..ANALYSED
    },
    Command {
        word: "checkmix",
        operands: "FILE BOARD MIX CERT",
        purpose: "checks a certificate that mix wrote",
        mix: Some(3),
        tells_pairing: true,
        reads: 4,
        ..ANALYSED
    },
    Command {
        word: "show",
        operands: "FILE BOARD",
        purpose: "lists what may move, and the functions",
        ..ANALYSED
    },
    Command {
        word: "gen",
        operands: "SEED KERNELS OUT",
        purpose: "writes a generated program under OUT",
        writes: &[3],
        numbers: "SEED is a number of 1 to 10 digits below 2^32, and KERNELS is one from 1 to 64",
        ..NONE
    },
    Command {
        word: "hex",
        operands: "FILE OUT",
        purpose: "writes FILE as Intel HEX under OUT",
        file: Some(1),
        reads: 1,
        writes: &[2],
        ..NONE
    },
    Command {
        word: "hexcheck",
        operands: "FILE HEX",
        purpose: "checks that HEX spells FILE",
        file: Some(1),
        reads: 2,
        ..NONE
    },
];

/// All commands.
fn commands() -> &'static [Command] {
    &COMMANDS
}

/// First words that ask for the table of commands.
const HELP: [&str; 3] = ["--help", "-h", "help"];

/// First words that ask for the version.
const VERSION: [&str; 3] = ["--version", "-V", "version"];

/// The command of a word, if there is one.
pub fn command_of(word: &str) -> Option<&'static Command> {
    for command in commands() {
        if command.word == word {
            return Some(command);
        }
    }
    None
}

/// Why words are no command, and the usage of the command that was meant, or of all. It fails only where no memory was
/// left.
pub fn explain_words(notes: &mut Notes, words: &[String]) {
    let Some(first) = words.first() else {
        say_all(notes);
        return;
    };
    match command_of(first.as_str()) {
        Some(command) => explain_operands(notes, command, words),
        None => explain_first(notes, first.as_str()),
    }
}

/// A first word that is no command.
fn explain_first(notes: &mut Notes, word: &str) {
    if VERSION.contains(&word) {
        notes.say_words(
            "the files that it reads and writes are those of docs/COMMAND_LINE.md; it has no version number",
        );
        return;
    }
    if !HELP.contains(&word) {
        notes.say("{} is no command", &[Piece::Name(word.as_bytes())]);
    }
    say_all(notes);
}

/// A line for each command.
fn say_all(notes: &mut Notes) {
    notes.say_words("usage: spmlink and one of");
    for command in commands() {
        say_usage(notes, "  {} {}: {}", command);
    }
    notes.say_words(
        "for example: spmlink relink upper.elf examples/default.toml input upper.new.elf upper.cert",
    );
}

/// A line of words with gaps for a command's word, its operands and its purpose.
fn say_usage(notes: &mut Notes, words: &str, command: &Command) {
    notes.say(
        words,
        &[
            Piece::Text(command.word),
            Piece::Text(command.operands),
            Piece::Text(command.purpose),
        ],
    );
}

/// What is wrong with the words behind that of a command.
fn explain_operands(notes: &mut Notes, command: &Command, words: &[String]) {
    let asks = match words.get(1) {
        Some(word) => HELP.contains(&word.as_str()),
        None => false,
    };
    if !asks {
        say_wrong_word(notes, command, words);
    }
    say_usage(notes, "usage: spmlink {} {}: {}", command);
}

/// The first word that is wrong.
fn say_wrong_word(notes: &mut Notes, command: &Command, words: &[String]) {
    for (place, word) in words.iter().enumerate() {
        if let Some(reason) = fault_of_name(word.as_str()) {
            say_word(notes, place, word.as_str(), reason, &[]);
            return;
        }
    }
    say_count(notes, command, words);
}

/// That there are too many words or too few, or else which of them the command may not have.
fn say_count(notes: &mut Notes, command: &Command, words: &[String]) {
    let given = words.len().saturating_sub(1) as u64;
    let wanted = command.operands.split_whitespace().count() as u64;
    if given != wanted {
        notes.say(
            "{} takes {} words, and was given {}",
            &[
                Piece::Name(command.word.as_bytes()),
                Piece::Number(wanted),
                Piece::Number(given),
            ],
        );
        return;
    }
    match repeated(command, words) {
        Some((place, word)) => say_word(
            notes,
            place,
            word,
            "has the name of another word, and what is written needs a name of its own",
            &[],
        ),
        None if command.numbers.is_empty() => {}
        None => notes.say_words(command.numbers),
    }
}

fn fault_of_name(word: &str) -> Option<&'static str> {
    if word.is_empty() {
        return Some("is empty");
    }
    if word.starts_with('-') {
        return Some("begins with `-`, and no word may: write `./-NAME`");
    }
    None
}

/// A line that begins by a word of the command line, and goes on by other words, whose gaps these pieces fill.
pub(crate) fn say_word(notes: &mut Notes, place: usize, word: &str, words: &str, pieces: &[Piece]) {
    notes.begin(
        "word {}, {}, ",
        &[Piece::Number(place as u64), Piece::Name(word.as_bytes())],
    );
    notes.put(words, pieces);
    notes.end("");
}

/// A name that is written and that another word has, too, and its place.
fn repeated<'a>(command: &Command, words: &'a [String]) -> Option<(usize, &'a str)> {
    for place in command.writes {
        if let Some(word) = words.get(*place) {
            if is_named_twice(command, words, *place, word.as_str()) {
                return Some((*place, word.as_str()));
            }
        }
    }
    None
}

/// Whether a name is that of another word than the one at `place`.
fn is_named_twice(command: &Command, words: &[String], place: usize, name: &str) -> bool {
    for (other, word) in words.iter().enumerate() {
        if other != place && is_name(command, other) && word.as_str() == name {
            return true;
        }
    }
    false
}

/// Whether the word at a place names what the command reads or writes.
fn is_name(command: &Command, place: usize) -> bool {
    (place != 0 && place <= command.reads) || command.writes.contains(&place)
}
