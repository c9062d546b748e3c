use crate::subject::Subject;
use elf_reader::{ElfView, STT_OBJECT};
use explanation_texts::{NameNumbers, is_anchor};
use object_graph::Graph;
use std::alloc::AllocError;

/// `st_info`: the symbol names a source file, of which the local symbols behind it are.
const FILE_SYMBOL: u8 = 4;

/// The name of a symbol by its number; empty where there is none.
pub(crate) fn symbol_name<'a>(view: &ElfView<'a>, number: u32) -> &'a [u8] {
    match view.symbols.get(number as usize) {
        Some(symbol) => symbol.name,
        None => &[],
    }
}

/// The name of an object that may move, by its number; empty where there is none.
pub(crate) fn object_name<'a>(view: &ElfView<'a>, graph: &Graph, object: u32) -> &'a [u8] {
    match graph.objects.get(object as usize) {
        Some(object) => symbol_name(view, object.name),
        None => &[],
    }
}

/// The name of the object that has the byte at an address, by the symbols; empty where there is none.
pub(crate) fn name_at<'a>(view: &ElfView<'a>, address: u32) -> &'a [u8] {
    for symbol in &view.symbols {
        if symbol.kind == STT_OBJECT && address.wrapping_sub(symbol.value) < symbol.size {
            return symbol.name;
        }
    }
    &[]
}

/// The names of the sources that have anchors in a section, as far as the file tells them, each once, in order. The time grows
/// with n log n, where n is the number of symbols, and with the lengths of the names, each once.
pub(crate) fn anchor_sources<'a>(
    subject: &Subject<'a, '_>,
    section: usize,
) -> Result<Vec<&'a [u8]>, AllocError> {
    let alloc = subject.inputs.alloc;
    let file = subject.inputs.unchecked();
    let mut sources = Vec::new(alloc);
    let Some(table) = file.symbol_table() else {
        return Ok(sources);
    };
    let mut names = NameNumbers::of(alloc, &file);
    let mut source: (u32, &'a [u8]) = (0, &[]);
    let mut number: u32 = 0;
    for symbol in &subject.analysis.view.symbols {
        if symbol.kind == FILE_SYMBOL {
            source = (file.symbol(&table, number).name, symbol.name);
        }
        let (place, name) = source;
        if is_anchor(symbol.name)
            && symbol.section as usize == section
            && !name.is_empty()
            && names.number_at(place)? == sources.len()
        {
            sources.push(name)?;
        }
        number = number.saturating_add(1);
    }
    Ok(sources)
}
