use std::alloc::{AllocError, Global};
use std::fmt::Display;

/// The most bytes of a file or of a word of the command line that are shown.
const MOST_SHOWN: usize = 100;

/// What a gap of a line stands for.
#[derive(Clone, Copy)]
pub enum Piece<'a> {
    /// Words.
    Text(&'a str),
    /// A name of a file or of the command line, in backquotes. It needn't be UTF-8.
    Name(&'a [u8]),
    /// A whole name as a board has it, in quotes.
    Quoted(&'a [u8]),
    /// A number in decimal.
    Number(u64),
    /// An immediate operand in decimal.
    Signed(i32),
    /// Thousandths, in percent.
    Percent(u64),
    /// An address or a word in hexadecimal.
    Hex(u32),
}

/// Lines that explain what a command did. Each begins with `spmlink: `. What finds no memory is left out, and there are no lines
/// at all then, so that nobody who says something has to ask.
#[derive(Drop)]
pub struct Notes {
    alloc: Global,
    text: Vec<u8>,
    is_cut: bool,
}

impl Notes {
    /// No lines.
    pub fn new(alloc: Global) -> Notes {
        Notes {
            alloc,
            text: Vec::new(alloc),
            is_cut: false,
        }
    }

    /// The text of all lines; none where a part of them found no memory.
    pub fn into_text(self) -> Vec<u8> {
        if self.is_cut {
            Vec::new(self.alloc)
        } else {
            self.text
        }
    }

    /// The whole text; an error where a part of it found no memory.
    pub(crate) fn into_whole(self) -> Result<Vec<u8>, AllocError> {
        if self.is_cut {
            Err(AllocError)
        } else {
            Ok(self.text)
        }
    }

    /// The allocator of the text.
    pub fn alloc(&self) -> Global {
        self.alloc
    }

    /// Leaves all lines out, since no memory was left.
    pub fn cut(&mut self) {
        self.is_cut = true;
    }

    /// Adds lines: each `{}` in the words is a gap, which the next piece fills.
    pub fn say(&mut self, words: &str, pieces: &[Piece]) {
        self.begin(words, pieces);
        self.add(b"\n");
    }

    /// Adds lines without gaps.
    pub fn say_words(&mut self, words: &str) {
        self.say(words, &[]);
    }

    /// Begins a line, as `say` does.
    pub(crate) fn begin(&mut self, words: &str, pieces: &[Piece]) {
        self.add(b"spmlink: ");
        self.put(words, pieces);
    }

    /// Ends a line by words without gaps.
    pub(crate) fn end(&mut self, words: &str) {
        self.put(words, &[]);
        self.add(b"\n");
    }

    /// Goes on with a line, as `say` does.
    pub(crate) fn put(&mut self, words: &str, pieces: &[Piece]) {
        let mut place: usize = 0;
        for byte in words.as_bytes() {
            match *byte {
                b'{' => {
                    if let Some(piece) = pieces.get(place) {
                        self.put_piece(*piece);
                    }
                    place = place.saturating_add(1);
                }
                b'}' => {}
                b'\n' => self.add(b"\nspmlink: "),
                byte => self.push(byte),
            }
        }
    }

    fn put_piece(&mut self, piece: Piece) {
        match piece {
            Piece::Text(text) => self.add(text.as_bytes()),
            Piece::Name(name) => self.push_name(name),
            Piece::Quoted(name) => self.push_quoted(name),
            Piece::Number(number) => self.show(number),
            Piece::Signed(number) => self.show(number),
            Piece::Percent(number) => {
                let (whole, tenths) = (number / 10, number % 10);
                self.show(format_args!("{whole}.{tenths} %"));
            }
            Piece::Hex(word) => self.show(format_args!("{word:#x}")),
        }
    }

    /// Adds bytes as they are.
    pub(crate) fn add(&mut self, bytes: &[u8]) {
        if self.text.extend_from_slice(bytes).is_err() {
            self.cut();
        }
    }

    fn push(&mut self, byte: u8) {
        if self.text.push(byte).is_err() {
            self.cut();
        }
    }

    /// Adds a value as its `Display` writes it.
    fn show(&mut self, value: impl Display + Drop) {
        match format!(in self.alloc; "{value}") {
            Ok(text) => self.add(text.as_bytes()),
            Err(_) => self.cut(),
        }
    }

    /// Adds bytes that may come from a file, in backquotes: what is not printable in ASCII is escaped, and what is long is cut
    /// off.
    fn push_name(&mut self, name: &[u8]) {
        let shown = name.get(..MOST_SHOWN).unwrap_or(name);
        self.push(b'`');
        for byte in shown {
            if *byte == b' ' || byte.is_ascii_graphic() {
                self.push(*byte);
            } else {
                let byte = *byte;
                self.show(format_args!("\\x{byte:02x}"));
            }
        }
        if shown.len() < name.len() {
            self.add(b"..");
        }
        self.push(b'`');
    }

    /// Adds a name as TOML has it in quotes.
    fn push_quoted(&mut self, name: &[u8]) {
        self.push(b'"');
        for byte in name {
            if matches!(*byte, b'"' | b'\\') {
                self.push(b'\\');
            }
            self.push(*byte);
        }
        self.push(b'"');
    }
}
