// Numbers and words of texts.
use anyhow::{Context, Result};
use num_traits::Num;
use std::alloc::Global;

/// A number in decimal, or with `0x` before it in hexadecimal.
pub(crate) fn number(word: &str) -> Result<u32> {
    let (digits, radix) = match word.strip_prefix("0x") {
        Some(digits) => (digits, 16),
        None => (word, 10),
    };
    <u32 as Num>::from_str_radix(digits, radix).context("a word is no number")
}

/// The numbers of a text.
pub(crate) fn numbers(alloc: Global, text: &str) -> Result<Vec<u32>> {
    let mut numbers = Vec::new(alloc);
    for word in text.split_whitespace() {
        numbers.push(number(word)?)?;
    }
    Ok(numbers)
}

/// The two numbers of a text.
pub(crate) fn two_numbers(text: &str) -> Result<(u32, u32)> {
    let (first, second) = text.split_once(' ').context("no second number")?;
    Ok((number(first)?, number(second)?))
}

/// The four words of a text.
pub(crate) fn four_words(text: &str) -> Result<(&str, &str, &str, &str)> {
    let (first, rest) = text.split_once(' ').context("no second word")?;
    let (second, rest) = rest.split_once(' ').context("no third word")?;
    let (third, fourth) = rest.split_once(' ').context("no fourth word")?;
    Ok((first, second, third, fourth))
}
