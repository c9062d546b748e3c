ghost use Rattle.std.specs.Prelude.{◌≡◌, IfOk, OnOk, IfErr, string_bytes, length, Some, None};
ghost use Rattle.elf_reader.specs.{File.{segments_of, entry_of, load_segments}, Loadable.{AreLoadable, AreDisjoint}};
ghost use Rattle.hex_image.specs.{Runs.{file_map}, Reading.{Spells}, Text.{hex_text, hex_records}};
ghost use Rattle.command_line.specs.Meaning.{hex_of, record_count_of, records_text, file_command_fault, texts_command_fault, RejectsFile, RejectsTexts};

use command_language::CommandFault;
use elf_reader::ElfView;
use hex_image::{first_difference, read_hex, record_count, write_hex};
use std::alloc::{AllocError, Global};

/// The result of a `hex` command, before any of it is written.
#[derive(Drop)]
pub struct HexResult {
    /// The file's bytes and entry in Intel HEX.
    pub text: Vec<u8>,
    /// How many records it has, as a line.
    pub line: String,
}

/// Writes a file's bytes and entry in Intel HEX.
pub fn hex_file(alloc: Global, file: &[u8]) -> Result<HexResult, CommandFault>
    ensures text { IfOk result (λ r. r.text.items ≡ hex_of file.now) }
    ensures line { IfOk result (λ r. string_bytes r.line ≡ records_text (record_count_of file.now)) }
    ensures sound { OnOk result (file_command_fault file.now ≡ None) }
    ensures err { IfErr result (RejectsFile file.now) }
{
    let view = elf_reader::read(alloc, file)?;
    Ok(hex_view(alloc, &view)?)
}

/// Writes the bytes and the entry of a view.
fn hex_view(alloc: Global, view: &ElfView<'_>) -> Result<HexResult, AllocError>
    requires loadable { AreLoadable (segments_of view.now) }
    requires disjoint { AreDisjoint (segments_of view.now) }
    ensures text { IfOk result (λ r. r.text.items ≡ hex_text (segments_of view.now) view.now.entry) }
    ensures line { IfOk result (λ r. string_bytes r.line
        ≡ records_text (length (hex_records (segments_of view.now) view.now.entry))) }
{
    let text = write_hex(alloc, view)?;
    let records = record_count(&text);
    let line = format!(in alloc; "records {records}\n")?;
    Ok(HexResult { text, line })
}

/// Checks that a text spells a file's bytes and entry.
pub fn check_hex(alloc: Global, file: &[u8], text: &[u8]) -> Result<(), CommandFault>
    ensures ok { OnOk result ((texts_command_fault file.now text.now ≡ None)
        × Spells text.now (file_map (load_segments file.now)) (Some (entry_of file.now))) }
    ensures err { IfErr result (RejectsTexts file.now text.now) }
{
    let view = elf_reader::read(alloc, file)?;
    let image = read_hex(alloc, text)?;
    match first_difference(&view, &image) {
        Some(at) => Err(CommandFault::Differs { at: u64::from(at) }),
        None => Ok(()),
    }
}
