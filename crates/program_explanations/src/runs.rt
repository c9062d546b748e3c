use crate::faults::follow_run;
use crate::fixing::explain_fixes;
use crate::names::{name_at, object_name, symbol_name};
use crate::subject::{RunEnd, Subject};
use code_blocks::{Code, End};
use elf_reader::ElfView;
use explanation_texts::{
    AddressFault, CALLING_ITSELF, FAULTY_INPUT, Involved, Notes, Origin, Piece, UncheckedFile,
    explain_fault, is_anchor, may_keep, say_fault_cure, say_load_address, say_still_running,
    say_trapped,
};
use object_graph::Graph;
use object_machine::Outcome;
use relink_core::Analysis;
use std::alloc::AllocError;

/// The statuses of address faults: of a measured run, and of one beside a result.
const ADDRESS_FAULTS: [u8; 2] = [8, 12];

/// The reason of an access to an object that may move by a plain number.
pub(crate) const BY_NUMBER: u32 = 4;

/// The functions of which compilers make calls where they find loops that do the same.
const CALLED_FOR_LOOPS: [&[u8]; 4] = [b"memset", b"memcpy", b"memmove", b"strlen"];

/// An address fault, and what it involves.
#[derive(Clone, Copy)]
pub(crate) struct NamedFault<'a> {
    pub(crate) fault: AddressFault,
    pub(crate) involved: Involved<'a>,
    /// The section that has the byte that is addressed; empty where there is none.
    pub(crate) section: &'a [u8],
    /// The line of the mix that lists the input, where one does.
    line: Option<u64>,
}

/// The program's runs on its inputs, up to the first address fault.
#[derive(Clone, Copy)]
pub(crate) struct FaultyRuns<'a> {
    /// How many steps they took.
    pub(crate) steps: u64,
    pub(crate) fault: Option<NamedFault<'a>>,
}

/// A run that met an address fault, if this is the status of one, with the objects by which it meets none where these are
/// kept: of the inputs that a mix lists, it is the first whose run meets one. The run is followed again, up to the fault.
pub fn explain_run(notes: &mut Notes, subject: &Subject) -> Result<(), AllocError> {
    let file = subject.inputs.unchecked();
    let analysis = subject.analysis;
    if let Some(end) = &subject.inputs.end {
        if end.outcome == Outcome::GoesOn {
            explain_itself(notes, analysis, end.at);
        }
    }
    if !ADDRESS_FAULTS.contains(&subject.inputs.status) {
        return Ok(());
    }
    let Some(first) = faulty_runs(subject, u64::MAX)?.fault else {
        return Ok(());
    };
    if let Some(line) = first.line {
        notes.say(FAULTY_INPUT, &[Piece::Number(line)]);
    }
    explain_fault(notes, &file, &first.fault, &first.involved);
    if explain_itself(notes, analysis, first.fault.pc) {
        return Ok(());
    }
    if may_keep(&file, &first.fault, &first.involved) {
        return explain_fixes(notes, subject, &first);
    }
    say_fault_cure(notes, &file, &first.fault, &first.involved);
    Ok(())
}

/// Whether the function that has the byte at an address calls itself, and is one that compilers call in place of loops. It says so
/// then.
fn explain_itself(notes: &mut Notes, analysis: &Analysis<'_>, address: u32) -> bool {
    for (number, function) in analysis.code.functions.iter().enumerate() {
        let name = symbol_name(&analysis.view, function.name);
        if address.wrapping_sub(function.start) < function.size
            && CALLED_FOR_LOOPS.contains(&name)
            && calls(&analysis.code, number, function.start)
        {
            notes.say(CALLING_ITSELF, &[Piece::Name(name)]);
            return true;
        }
    }
    false
}

/// Whether a block of a function ends by a call of the code at an address.
fn calls(code: &Code, function: usize, address: u32) -> bool {
    for block in &code.blocks {
        let is_call = match block.end {
            End::Call { target, .. } | End::Tail { target } => target == address,
            _ => false,
        };
        if let Some(caller) = block.function {
            if is_call && caller as usize == function {
                return true;
            }
        }
    }
    false
}

/// The program's runs up to the first address fault, in so many steps at most.
pub(crate) fn faulty_runs<'a>(
    subject: &Subject<'a, '_>,
    most_steps: u64,
) -> Result<FaultyRuns<'a>, AllocError> {
    let analysis = subject.analysis;
    let mut runs = FaultyRuns {
        steps: 0,
        fault: None,
    };
    for place in 0..subject.inputs.listed.len().max(1) {
        let Some((input, line)) = subject.inputs.input_at(place) else {
            break;
        };
        let left = most_steps.saturating_sub(runs.steps);
        let run = follow_run(subject, input, left)?;
        runs.steps = runs.steps.saturating_add(run.steps);
        if let Some(fault) = run.fault {
            let section = section_of(&subject.inputs.unchecked(), &fault);
            runs.fault = Some(NamedFault {
                fault,
                involved: involved_in(&analysis.view, &analysis.graph, &fault, section),
                section,
                line,
            });
            break;
        }
    }
    Ok(runs)
}

/// A measured run that did not come to its program's end.
pub fn explain_end(notes: &mut Notes, file: &UncheckedFile, end: &RunEnd) {
    if let Some(segment) = file.segment_loaded_apart() {
        say_load_address(notes, file, &segment);
    }
    match end.outcome {
        Outcome::Trapped { pc } => say_trapped(notes, file, end.steps, pc),
        Outcome::GoesOn => say_still_running(notes, file, end.steps, end.at),
        Outcome::Exited(_) | Outcome::AddressFault { .. } => {}
    }
}

/// What is known by name of an address fault, whose byte is in a section.
fn involved_in<'a>(
    view: &ElfView<'a>,
    graph: &Graph,
    fault: &AddressFault,
    section: &'a [u8],
) -> Involved<'a> {
    let culprit = &fault.culprit;
    let addressed = match culprit.address {
        Some(address) => name_at(view, address),
        None => &[],
    };
    Involved {
        // that of the value, or else the one that is addressed by a number
        object: if culprit.origin.is_none() && fault.why == BY_NUMBER {
            addressed
        } else {
            origin_name(view, graph, culprit.origin)
        },
        other: origin_name(view, graph, culprit.other),
        bytes: if addressed.is_empty() {
            section
        } else {
            addressed
        },
        has_symbols: view.symbols.len() > 1,
        has_relocations: !view.relocs.is_empty(),
        has_anchors: has_anchors(view),
    }
}

/// Whether GCC made anchors for sections of a file.
fn has_anchors(view: &ElfView) -> bool {
    for symbol in &view.symbols {
        if is_anchor(symbol.name) {
            return true;
        }
    }
    false
}

/// The object of whose address a value was made; empty where none is known.
fn origin_name<'a>(view: &ElfView<'a>, graph: &Graph, origin: Option<Origin>) -> &'a [u8] {
    match origin {
        Some(origin) => object_name(view, graph, origin.object),
        None => &[],
    }
}

/// The section that has the byte that is addressed; empty where there is none.
fn section_of<'a>(file: &UncheckedFile<'a>, fault: &AddressFault) -> &'a [u8] {
    let Some(address) = fault.culprit.address else {
        return &[];
    };
    match file.section_at(address) {
        Some(section) => file.section_name(section),
        None => &[],
    }
}
