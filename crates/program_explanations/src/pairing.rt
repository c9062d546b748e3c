use crate::names::object_name;
use crate::paired_text::is_paired_by_text;
use crate::subject::{Inputs, Subject};
use crate::units::{PairedLow, UnitTable};
use crate::unpaired::unpaired_of_run;
use elf_reader::{ElfView, R_RISCV_PCREL_HI20};
use explanation_texts::{
    MixedParts, Notes, Piece, UNPAIRED_INPUT, UNPAIRED_RUN, Unpaired, say_unpaired,
};
use loaded_file::{LoadedFile, counts, symbol_value};
use object_graph::{Graph, is_pair_low};
use std::alloc::{AllocError, Global};

/// Whether it may be to tell where the program's run is not paired: the command tells that, and the file makes addresses
/// relative to the pc.
pub fn may_be_unpaired(inputs: &Inputs) -> bool {
    inputs.tells_pairing
        && match elf_reader::read(inputs.alloc, inputs.file) {
            Ok(view) => makes_relative(&view, None),
            Err(_) => false,
        }
}

/// Whether a file makes addresses relative to the pc, of objects that may move where these are given. Where it makes none of
/// these, each run of its program is paired.
fn makes_relative(view: &ElfView, movable: Option<&Graph>) -> bool {
    for reloc in &view.relocs {
        let is_relative = reloc.kind == R_RISCV_PCREL_HI20 || is_pair_low(reloc.kind);
        if is_relative && is_site(movable, reloc.at) {
            return true;
        }
    }
    false
}

/// Whether an address of an object that may move is made at an address; everywhere where none are given.
fn is_site(movable: Option<&Graph>, address: u32) -> bool {
    let Some(graph) = movable else {
        return true;
    };
    let place = graph.sites.partition_point(|site| site.at < address);
    match graph.sites.get(place) {
        Some(site) => site.at == address,
        None => false,
    }
}

/// The units of a program, if a run of it may not be paired: it makes addresses relative to the pc of objects that may move, and not
/// so that its text alone tells that each run is.
pub(crate) fn unsure_units(subject: &Subject) -> Result<Option<UnitTable>, AllocError> {
    let alloc = subject.inputs.alloc;
    let analysis = subject.analysis;
    if !makes_relative(&analysis.view, Some(&analysis.graph)) {
        return Ok(None);
    }
    let mut units = UnitTable::new(alloc, &analysis.code, &analysis.graph)?;
    units.name_uppers(&paired_lows(alloc, &analysis.view)?);
    if is_paired_by_text(analysis, &units) {
        return Ok(None);
    }
    Ok(Some(units))
}

/// The first of the program's runs that is not paired. They are followed again, unless the program's text tells that each is.
pub(crate) fn explain_pairing(notes: &mut Notes, subject: &Subject) -> Result<(), AllocError> {
    let inputs = &subject.inputs;
    if !inputs.tells_pairing {
        return Ok(());
    }
    let Some(units) = unsure_units(subject)? else {
        return Ok(());
    };
    for place in 0..inputs.listed.len().max(1) {
        let Some((input, line)) = inputs.input_at(place) else {
            break;
        };
        if let Some(unpaired) = unpaired_of_run(subject, input, &units)? {
            if let Some(line) = line {
                notes.say(UNPAIRED_INPUT, &[Piece::Number(line)]);
            }
            explain_unpaired(notes, subject, &unpaired);
            break;
        }
    }
    Ok(())
}

/// The low parts of a file that are relative to the pc, each with the AUIPC that its relocation names: where its symbol
/// stands.
fn paired_lows(alloc: Global, view: &ElfView) -> Result<Vec<PairedLow>, AllocError> {
    let file = LoadedFile::of(alloc, view)?;
    let mut lows = Vec::new(alloc);
    for reloc in &view.relocs {
        if is_pair_low(reloc.kind) && counts(&file, reloc) {
            lows.push(PairedLow {
                at: reloc.at,
                auipc: symbol_value(view, reloc.symbol as usize),
            })?;
        }
    }
    Ok(lows)
}

fn explain_unpaired(notes: &mut Notes, subject: &Subject, unpaired: &Unpaired) {
    let analysis = subject.analysis;
    let parts = MixedParts {
        low: match unpaired.object {
            Some(object) => object_name(&analysis.view, &analysis.graph, object),
            None => &[],
        },
        upper: object_name(&analysis.view, &analysis.graph, unpaired.other),
    };
    if subject.inputs.beside.is_none() {
        notes.say_words(UNPAIRED_RUN);
    }
    say_unpaired(notes, &subject.inputs.unchecked(), unpaired, &parts);
}
