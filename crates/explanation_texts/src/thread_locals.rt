use crate::notes::{Notes, Piece};
use crate::places::put_place;
use crate::unchecked::{CodeSymbols, NameNumbers, RawRelocation, RawSection, UncheckedFile};
use std::alloc::AllocError;
use std::collections::BTreeSet;

/// The kinds of relocations of thread-local symbols (RISC-V psABI, "Relocations").
const KINDS: [u32; 14] = [6, 7, 8, 9, 10, 11, 21, 22, 29, 30, 31, 32, 49, 50];

/// How many uses of thread-local symbols are told.
const TOLD_USES: usize = 8;

/// The thread-local variable of the C library.
const ERRNO: &[u8] = b"errno";

const ERRNO_CURE: &str =
    "first: errno is the C library's: link functions of your own that set none, in place of those above, in front of it; where your own sources name errno, compile these with -D__PICOLIBC_ERRNO_FUNCTION=NAME, where int *NAME(void) is yours";

const VARIABLE_CURE: &str =
    "{}leave _Thread_local (thread_local, __thread) out of the declarations, or take the switch of the library that does so";

/// The uses of thread-local symbols by functions, by name.
#[derive(Drop)]
struct ThreadLocalUses<'a> {
    file: UncheckedFile<'a>,
    functions: CodeSymbols,
    names: NameNumbers<'a>,
    /// Each use once: the numbers of the names of its symbol and of its function, if it has one.
    found: BTreeSet<(usize, Option<usize>)>,
    /// How many of these are uses of the C library's `errno`.
    errors: usize,
}

/// Whether a relocation of a kind is of a thread-local symbol.
pub(crate) fn is_thread_local(kind: u32) -> bool {
    KINDS.contains(&kind)
}

/// The thread-local symbols that relocations name, each once for each function that uses it, and what to do.
pub(crate) fn say_thread_local(notes: &mut Notes, file: &UncheckedFile) {
    notes.say_words("the symbol is thread-local: it is found by the tp register. All such are:");
    if tell_uses(notes, file).is_err() {
        notes.cut();
    }
}

/// Tells the first uses, how many others there are, and what to do. The time grows with n log n, where n is the number of sections,
/// symbols and relocations, and with the lengths of names, each once.
fn tell_uses(notes: &mut Notes, file: &UncheckedFile) -> Result<(), AllocError> {
    let alloc = notes.alloc();
    let mut uses = ThreadLocalUses {
        file: *file,
        functions: CodeSymbols::of(alloc, file)?,
        names: NameNumbers::of(alloc, file),
        found: BTreeSet::new(alloc),
        errors: 0,
    };
    uses.tell_sections(notes)?;
    say_rest(notes, uses.found.len(), uses.errors);
    Ok(())
}

/// How many other uses there are of so many, and what to do, by how many are of the C library's `errno`.
fn say_rest(notes: &mut Notes, all: usize, errors: usize) {
    if all > TOLD_USES {
        let more = all.saturating_sub(TOLD_USES) as u64;
        notes.say("  and {} more", &[Piece::Number(more)]);
    }
    if errors != 0 {
        notes.say_words(ERRNO_CURE);
    }
    if errors != all || errors == 0 {
        let before = if errors == 0 {
            "first: "
        } else {
            "then, of the others: "
        };
        notes.say(VARIABLE_CURE, &[Piece::Text(before)]);
    }
}

impl ThreadLocalUses<'_> {
    fn tell_sections(&mut self, notes: &mut Notes) -> Result<(), AllocError> {
        for k in 0..self.file.section_count() {
            let section = self.file.section(k);
            self.tell_section(notes, &section)?;
        }
        Ok(())
    }

    /// Tells the uses by the relocations of a section that were not told before.
    fn tell_section(&mut self, notes: &mut Notes, section: &RawSection) -> Result<(), AllocError> {
        for index in 0..self.file.relocation_count(section) {
            let relocation = self.file.relocation_of(section, index);
            if is_thread_local(relocation.kind)
                && self.add(&relocation)?
                && self.found.len() <= TOLD_USES
            {
                self.say_use(notes, &relocation);
            }
        }
        Ok(())
    }

    /// Adds the use by a relocation. Tells whether it is new.
    fn add(&mut self, relocation: &RawRelocation) -> Result<bool, AllocError> {
        let symbol = self.names.number_at(relocation.symbol.name)?;
        let function = match self.functions.code_symbol(relocation.at) {
            Some(function) => Some(self.names.number_at(function.name)?),
            None => None,
        };
        let is_new = self.found.insert((symbol, function))?;
        if is_new && self.names.number_of(ERRNO) == Some(symbol) {
            self.errors = self.errors.saturating_add(1);
        }
        Ok(is_new)
    }

    fn say_use(&self, notes: &mut Notes, relocation: &RawRelocation) {
        notes.begin(
            "  {}",
            &[Piece::Name(self.file.text(relocation.symbol.name))],
        );
        let source = self.file.source_of(relocation);
        if !source.is_empty() {
            notes.put(" of {}", &[Piece::Name(source)]);
        }
        notes.put(", used", &[]);
        put_place(notes, &self.file, relocation.at);
        notes.end("");
    }
}
