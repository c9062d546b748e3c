//! The text that the program prints, put together part by part. What cannot fail is cheap to prove: a part that finds no
//! memory is left out, and the whole is not given then.
use std::alloc::Global;
use std::fmt::{Debug, Display};

/// A text, and whether a part of it found no memory.
#[derive(Drop)]
pub(crate) struct Listing {
    alloc: Global,
    text: String,
    is_cut: bool,
}

impl Listing {
    /// A listing without text.
    pub(crate) fn new(alloc: Global) -> Listing {
        Listing {
            alloc,
            text: String::new(alloc),
            is_cut: false,
        }
    }

    /// The text, unless a part of it found no memory.
    pub(crate) fn whole(&self) -> Option<&str> {
        if self.is_cut { None } else { Some(&self.text) }
    }

    /// Where what is listed finds its memory.
    pub(crate) fn alloc(&self) -> Global {
        self.alloc
    }

    /// A text.
    pub(crate) fn text(&mut self, text: &str) {
        if self.text.push_str(text).is_err() {
            self.is_cut = true;
        }
    }

    /// A text that ends a line.
    pub(crate) fn line(&mut self, text: &str) {
        self.text(text);
        self.text("\n");
    }

    /// The end of a line.
    pub(crate) fn end_line(&mut self) {
        self.text("\n");
    }

    /// A value as its `Display` writes it.
    pub(crate) fn shown(&mut self, value: impl Display + Drop) {
        if write!(self.text, "{value}").is_err() {
            self.is_cut = true;
        }
    }

    /// A text and behind it a number.
    pub(crate) fn number(&mut self, before: &str, number: u64) {
        self.text(before);
        self.shown(number);
    }

    /// A text and a number that end a line.
    pub(crate) fn number_line(&mut self, before: &str, number: u64) {
        self.number(before, number);
        self.text("\n");
    }

    /// A text and behind it a value as its `Debug` writes it.
    pub(crate) fn value(&mut self, before: &str, value: &impl Debug) {
        self.text(before);
        self.shown(format_args!("{value:?}"));
    }

    /// A text and a value that end a line.
    pub(crate) fn value_line(&mut self, before: &str, value: &impl Debug) {
        self.value(before, value);
        self.text("\n");
    }

    /// A text and behind it a number as `0x` and its digits.
    pub(crate) fn hex(&mut self, before: &str, number: u32) {
        self.text(before);
        self.shown(format_args!("{number:#x}"));
    }

    /// A text and behind it an address, as `0x` and eight digits.
    pub(crate) fn address(&mut self, before: &str, address: u32) {
        self.end(before, u64::from(address));
    }

    /// A text and behind it a byte, as `0x` and two digits.
    pub(crate) fn byte(&mut self, before: &str, byte: u8) {
        self.text(before);
        self.shown(format_args!("{byte:#04x}"));
    }

    /// A text and behind it the address at the end of a range, as `0x` and eight digits or more.
    pub(crate) fn end(&mut self, before: &str, end: u64) {
        self.text(before);
        self.shown(format_args!("{end:#010x}"));
    }

    /// A text and behind it a word, as eight digits.
    pub(crate) fn word(&mut self, before: &str, word: u32) {
        self.text(before);
        self.shown(format_args!("{word:08x}"));
    }

    /// The end of a line with these addresses, each behind a space.
    pub(crate) fn addresses(&mut self, addresses: &[u32]) {
        for address in addresses {
            self.address(" ", *address);
        }
        self.text("\n");
    }

    /// The end of a line with these numbers, each behind a space.
    pub(crate) fn numbers(&mut self, numbers: &[u64]) {
        for number in numbers {
            self.number(" ", *number);
        }
        self.text("\n");
    }

    /// The end of a line with these words, each behind a space.
    pub(crate) fn words(&mut self, words: &[u32]) {
        for word in words {
            self.word(" ", *word);
        }
        self.text("\n");
    }
}
