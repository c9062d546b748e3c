ghost use Rattle.rv32im.specs.Table.{IsInRange};

use crate::listing::Listing;
use crate::texts::{number, two_numbers};
use anyhow::Result;
use rv32im::{Instr, bytes4, decode, defs, encode, hi20, lo12, sext, uses, word4};

/// The halves and the bytes of a word, and the instruction that it is: what that is encoded to, and the registers that
/// it reads and writes, a bit for each.
pub(crate) fn tell_word(listing: &mut Listing, text: &str) -> Result<()> {
    let word = number(text)?;
    let bytes = bytes4(word);
    let same = word4(bytes);
    listing.text(text);
    listing.hex(" ", hi20(word));
    listing.value(" ", &lo12(word));
    listing.value(" ", &bytes);
    listing.hex(" ", same);
    listing.end_line();
    match decode(word) {
        Some(instr) => tell_instruction(listing, &instr),
        None => listing.line("  no instruction"),
    }
    Ok(())
}

/// What an instruction is encoded to, and the registers that it reads and writes.
fn tell_instruction(listing: &mut Listing, instr: &Instr)
    requires { IsInRange instr.now }
{
    let (read, written) = (uses(instr).bits, defs(instr).bits);
    listing.value("  ", instr);
    listing.address(" ", encode(instr));
    listing.hex(", reads ", read);
    listing.hex(", writes ", written);
    listing.end_line();
}

/// A word whose low bits, as many as are given, are extended by their sign.
pub(crate) fn tell_extension(listing: &mut Listing, text: &str) -> Result<()> {
    let (word, bits) = two_numbers(text)?;
    if bits == 0 || bits > 32 {
        return Ok(());
    }
    listing.text(text);
    listing.hex(" ", sext(word, bits));
    listing.end_line();
    Ok(())
}
