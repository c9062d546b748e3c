use command_line::run;
use program_explanations::Inputs;
use shelf_io::{MemShelf, MemSink};
use std::alloc::AllocError;

/// How many bytes the command `paid` prints at most.
const MOST_PRINTED: usize = 1000;

/// What the command `paid` prints of the measured run, by the certificate; nothing where there is none. It is done in memory.
pub(crate) fn paid_text(inputs: &Inputs) -> Result<Vec<u8>, AllocError> {
    let alloc = inputs.alloc;
    let (Some(input), Some(certificate)) = (inputs.input, inputs.certificate) else {
        return Ok(Vec::new(alloc));
    };
    let mut words = Vec::new(alloc);
    words.push(String::from_str(alloc, "paid")?)?;
    let mut entries = Vec::new(alloc);
    let texts = [inputs.file, inputs.board_text(), input, certificate];
    for (number, bytes) in texts.iter().enumerate() {
        words.push(format!(in alloc; "{number}")?)?;
        entries.push((format!(in alloc; "{number}")?, bytes.to_vec(alloc)?))?;
    }
    let mut shelf = MemShelf::sound(alloc, entries)?;
    let mut out = MemSink::new(Vec::with_capacity(alloc, MOST_PRINTED)?, Vec::new(alloc));
    run(alloc, &words, &mut shelf, &mut out);
    out.bytes().to_vec(alloc)
}
