use crate::listing::Listing;
use crate::texts::{four_words, number, numbers, two_numbers};
use anyhow::{Context, Result, bail};
use elf_reader::Reloc;
use elf_writer::push_words;
use std::alloc::Global;
use workload_gen::{FileSpec, SectionSpec, SymbolSpec, build, workload};

/// A file to be built, or the generated one of a number of kernels, the bytes behind it, and the input of its runs.
#[derive(Drop)]
pub(crate) struct Case {
    spec: FileSpec,
    kernels: Option<u32>,
    behind: Vec<u8>,
    pub(crate) input: Vec<u8>,
}

/// Adds the section `NAME ADDRESS FLAGS`, which has no words yet.
fn push_section(alloc: Global, sections: &mut Vec<SectionSpec>, text: &str) -> Result<()> {
    let (name, rest) = text.split_once(' ').context("a section has no address")?;
    let (addr, flags) = two_numbers(rest)?;
    sections.push(SectionSpec {
        name: String::from_str(alloc, name)?,
        addr,
        flags,
        bytes: Vec::new(alloc),
        empty: 0,
        relocs: Vec::new(alloc),
    })?;
    Ok(())
}

/// Adds the symbol `NAME VALUE SIZE KIND SECTION`.
fn push_symbol(alloc: Global, symbols: &mut Vec<SymbolSpec>, text: &str) -> Result<()> {
    let (name, rest) = text.split_once(' ').context("a symbol has no value")?;
    let (value, size, kind, section) = four_words(rest)?;
    let (value, size, kind, section) = (
        number(value)?,
        number(size)?,
        number(kind)?,
        number(section)?,
    );
    symbols.push(SymbolSpec {
        name: String::from_str(alloc, name)?,
        value,
        size,
        kind: (kind % 16) as u8,
        section,
    })?;
    Ok(())
}

/// Adds the relocation `ADDRESS KIND SYMBOL`.
fn push_reloc(relocs: &mut Vec<Reloc>, text: &str) -> Result<()> {
    let (at, rest) = text.split_once(' ').context("a relocation has no kind")?;
    let (kind, symbol) = two_numbers(rest)?;
    relocs.push(Reloc {
        at: number(at)?,
        kind,
        symbol,
        addend: 0,
        section: 1,
    })?;
    Ok(())
}

impl Case {
    pub(crate) fn empty(alloc: Global) -> Case {
        let spec = FileSpec {
            entry: 0,
            sections: Vec::new(alloc),
            symbols: Vec::new(alloc),
        };
        Case {
            spec,
            kernels: None,
            behind: Vec::new(alloc),
            input: Vec::new(alloc),
        }
    }

    /// The file.
    pub(crate) fn built(&self, alloc: Global) -> Result<Vec<u8>> {
        let mut file = match self.kernels {
            Some(kernels) => workload(alloc, 0, kernels.clamp(1, 64))?,
            None => build(alloc, &self.spec)?,
        };
        file.extend_from_slice(&self.behind)?;
        Ok(file)
    }

    /// Tells how many bytes the file has, and those from one place up to another.
    pub(crate) fn tell_built(&self, listing: &mut Listing, text: &str) -> Result<()> {
        let (from, to) = two_numbers(text)?;
        let file = self.built(listing.alloc())?;
        let range = file
            .get(from as usize..to as usize)
            .context("the file has no such bytes")?;
        listing.number("built: ", file.len() as u64);
        listing.number(" bytes, and from ", u64::from(from));
        listing.number_line(" to ", u64::from(to));
        for line in range.chunks(16) {
            listing.value_line("  ", &line);
        }
        Ok(())
    }

    /// The section whose lines are being read.
    fn last_section(&mut self) -> Result<&mut SectionSpec> {
        self.spec.sections.last_mut().context("no section")
    }

    /// Takes words of the last section.
    pub(crate) fn take_words(&mut self, words: &[u32]) -> Result<()> {
        push_words(&mut self.last_section()?.bytes, words)?;
        Ok(())
    }

    /// Takes a number of a file: its `entry`, the size in memory of the last section where it is `empty`, a byte `behind` all of
    /// the file, or how many `kernels` a generated file has.
    fn take_number(&mut self, key: &str, number: u32) -> Result<()> {
        match key {
            "entry" => self.spec.entry = number,
            "empty" => self.last_section()?.empty = number,
            "behind" => self.behind.push((number % 256) as u8)?,
            "kernels" => self.kernels = Some(number),
            _ => bail!("a line has no known key"),
        }
        Ok(())
    }

    /// Takes a line of a file: a `section`, its `words` and relocations (`reloc`), a `symbol`, the `input` of its runs, or a number.
    pub(crate) fn take_line(&mut self, alloc: Global, key: &str, rest: &str) -> Result<()> {
        match key {
            "section" => push_section(alloc, &mut self.spec.sections, rest),
            "symbol" => push_symbol(alloc, &mut self.spec.symbols, rest),
            "reloc" => push_reloc(&mut self.last_section()?.relocs, rest),
            "words" => self.take_words(&numbers(alloc, rest)?),
            "input" => {
                self.input = rest.as_bytes().to_vec(alloc)?;
                Ok(())
            }
            _ => self.take_number(key, number(rest)?),
        }
    }
}
