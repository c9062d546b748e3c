//! A large program: 65,534 blocks, two fewer than there may be, and 64 objects whose addresses they make.
use elf_reader::Reloc;
use std::alloc::{AllocError, Global};
use workload_gen::{FileSpec, SectionSpec, SymbolSpec, build};

/// A fourth of the most blocks that there may be.
const FOURTH: u32 = 16_384;

const OBJECTS: u32 = 64;

const CODE: u32 = 0x1_0000;

const DATA: u32 = 0x6_0000;

/// `beq t0, t1` over a word.
const OVER: u32 = 0x0062_8463;

/// `addi a2, a0, 4`
const AFTER: u32 = 0x0045_0613;

/// `beq t0, t1` to the next word, and `j` to itself.
const LAST: [u32; 2] = [0x0062_8263, 0x0000_006f];

/// `lui a0` of an address.
fn upper(address: u32) -> u32 {
    (address.wrapping_add(0x800) & 0xffff_f000) | 0x537
}

/// One time less than a fourth of the blocks: a branch over a word, the upper part of the next object's address, the
/// same branch, and an addition to what was made.
fn code(alloc: Global) -> Result<Vec<u8>, AllocError> {
    let mut bytes = Vec::new(alloc);
    for k in 0..FOURTH - 1 {
        let object = DATA + k % OBJECTS * 4;
        for word in [OVER, upper(object), OVER, AFTER] {
            bytes.extend_from_slice(&word.to_le_bytes())?;
        }
    }
    for word in LAST {
        bytes.extend_from_slice(&word.to_le_bytes())?;
    }
    Ok(bytes)
}

/// The relocations of the upper parts.
fn relocations(alloc: Global) -> Result<Vec<Reloc>, AllocError> {
    let mut relocs = Vec::new(alloc);
    for k in 0..FOURTH - 1 {
        relocs.push(Reloc {
            at: CODE + 16 * k + 4,
            kind: 26,
            symbol: 2 + k % OBJECTS,
            addend: 0,
            section: 1,
        })?;
    }
    Ok(relocs)
}

/// A function that ends behind the code, so that it is none, and the objects.
fn symbols(alloc: Global) -> Result<Vec<SymbolSpec>, AllocError> {
    let main = SymbolSpec {
        name: String::from_str(alloc, "main")?,
        value: CODE,
        size: 16 * FOURTH,
        kind: 2,
        section: 1,
    };
    let mut symbols = vec![in alloc; main]?;
    for k in 0..OBJECTS {
        symbols.push(SymbolSpec {
            name: String::from_str(alloc, "cell")?,
            value: DATA + 4 * k,
            size: 4,
            kind: 1,
            section: 2,
        })?;
    }
    Ok(symbols)
}

/// The file of the program.
pub(crate) fn large_file(alloc: Global) -> Result<Vec<u8>, AllocError> {
    let text = SectionSpec {
        name: String::from_str(alloc, ".text")?,
        addr: CODE,
        flags: 6,
        bytes: code(alloc)?,
        empty: 0,
        relocs: relocations(alloc)?,
    };
    let data = SectionSpec {
        name: String::from_str(alloc, ".data")?,
        addr: DATA,
        flags: 3,
        bytes: vec![in alloc; 0; OBJECTS as usize * 4]?,
        empty: 0,
        relocs: Vec::new(alloc),
    };
    build(
        alloc,
        &FileSpec {
            entry: CODE,
            sections: vec![in alloc; text, data]?,
            symbols: symbols(alloc)?,
        },
    )
}
