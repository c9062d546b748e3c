ghost use Rattle.std.specs.Prelude.{◌≡◌, ◌++◌, IfOk, OnOk, string_bytes};
ghost use Rattle.elf_reader.specs.File.{plain_view};
ghost use Rattle.loaded_file.specs.Records.{symbol_at};
ghost use Rattle.printed_lines.specs.{ProfileLines.{address_text, named_line}, Texts.{text_of}};

use crate::text::Text;
use elf_reader::ElfView;
use std::alloc::{AllocError, Global};

/// An address as it is printed: `0x` and eight hexadecimal digits. It fails only where no memory was left.
#[tactic(auto, using(crate::proofs::Hexadecimal::eight_digits))]
pub fn address_text(alloc: Global, address: u32) -> Result<String, AllocError>
    ensures { IfOk result (λ text. string_bytes text ≡ address_text address) }
{
    format!(in alloc; "0x{address:08x}")
}

/// Adds a line of a beginning and a name.
pub(crate) fn push_named<'a>(
    text: &mut Text<'a>,
    head: &[u8],
    name: &'a [u8],
) -> Result<(), AllocError>
    ensures { OnOk result (text_of text.new ≡ text_of text.old ++ named_line head.now name.now) }
{
    text.push(head)?;
    text.push_name(name)?;
    text.push(b"\n")?;
    Ok(())
}

/// The name of a symbol by its number; no bytes where there is no such symbol.
pub fn symbol_name<'a>(view: &ElfView<'a>, number: u32) -> &'a [u8]
    ensures { result.now ≡ (symbol_at (plain_view view.now) number).name }
{
    match view.symbols.get(number as usize) {
        Some(symbol) => symbol.name,
        None => &[],
    }
}
