ghost use Rattle.std.specs.Prelude.{◌≡◌, ℕ, ◌+◌, ◌*◌, ◌<◌, Bool, ◌&&◌, ◌||◌, map, IfOk};
ghost use Rattle.std.specs.List.{list_any};
ghost use Rattle.list_checks.specs.Tests.{lies_in};
ghost use Rattle.elf_reader.specs.File.{plain_section, plain_symbol, plain_view};
ghost use Rattle.loaded_file.specs.{Ranges.{is_executable, has_byte_range, has_owner, has_range, is_range}, ByteRanges.{key_of, byte_range_of, is_key_of, has_byte_range_in, IsAscending, IsFilled}};

use crate::byte_ranges::ByteRange;
use crate::file::LoadedFile;
use elf_reader::{EXECUTABLE_BIT, STT_OBJECT, Section, Symbol};
use list_checks::arrange_once;
use std::alloc::{AllocError, Global};

/// How many addresses there are.
const ADDRESSES: u64 = 0x1_0000_0000;

/// The ranges of the objects of a program, each once, by home and then by size, ascending.
/// It fails only where no memory was left.
///
/// The time grows with n log n, where n is the number of symbols.
pub fn object_ranges(alloc: Global, file: &LoadedFile) -> Result<Vec<ByteRange>, AllocError>
    ensures ascending { IfOk result (λ ranges. IsAscending ranges.items) }
    ensures exact { IfOk result (λ ranges. (home n : ℕ) → has_byte_range_in ranges.items home n ≡ is_range (plain_view file.now.view.now) home n) }
    ensures filled { IfOk result (λ ranges. IsFilled ranges.items) }
{
    let mut keys = range_keys(alloc, file)?;
    arrange_once(&mut keys);
    byte_ranges_of(alloc, &keys)
}

/// The key of the range of each symbol of an object.
fn range_keys(alloc: Global, file: &LoadedFile) -> Result<Vec<u64>, AllocError>
    ensures { IfOk result (λ keys. (home n : ℕ) → list_any (is_key_of home n) keys.items ≡ is_range (plain_view file.now.view.now) home n) }
{
    let mut keys = Vec::new(alloc);
    for k in 0..file.view.symbols.len() {
        push_range(&mut keys, file, &file.view.symbols[k])?;
    }
    Ok(keys)
}

/// Adds the key of the range of a symbol, if it is that of an object.
fn push_range(keys: &mut Vec<u64>, file: &LoadedFile, symbol: &Symbol) -> Result<(), AllocError>
    ensures { IfOk result (λ _. (test : ℕ → Bool) → list_any test keys.new.items ≡ (list_any test keys.old.items || (has_range (plain_view file.now.view.now) (plain_symbol symbol.now) && test (key_of symbol.now.value symbol.now.size)))) }
{
    if has_range(file, symbol) {
        keys.push(key_of(symbol.value, symbol.size))?;
    }
    Ok(())
}

/// A range as one number: keys ascend as ranges do by home and then by size.
fn key_of(home: u32, size: u32) -> u64
    ensures { result ≡ key_of home size }
{
    u64::from(home) * ADDRESSES + u64::from(size)
}

/// The range of each key.
fn byte_ranges_of(alloc: Global, keys: &[u64]) -> Result<Vec<ByteRange>, AllocError>
    ensures { IfOk result (λ ranges. ranges.items ≡ map byte_range_of keys.now) }
{
    let mut ranges = Vec::new(alloc);
    for key in keys {
        ranges.push(byte_range_of(*key))?;
    }
    Ok(ranges)
}

/// The range of a key.
fn byte_range_of(key: u64) -> ByteRange
    ensures { result ≡ byte_range_of key }
{
    ByteRange {
        home: (key / ADDRESSES) as u32,
        size: (key % ADDRESSES) as u32,
    }
}

/// Whether a symbol is that of an object: it has a size and a place, and lies inside a loaded section that
/// holds no code.
pub fn has_range(file: &LoadedFile, symbol: &Symbol) -> bool
    ensures { result ≡ has_range (plain_view file.now.view.now) (plain_symbol symbol.now) }
{
    symbol.kind == STT_OBJECT && has_byte_range(symbol) && has_owner(file, symbol)
}

/// It has a place and a size that an object can have.
fn has_byte_range(symbol: &Symbol) -> bool
    ensures { result ≡ has_byte_range (plain_symbol symbol.now) }
{
    let end = u64::from(symbol.value) + u64::from(symbol.size);
    0 < symbol.size && 0 < symbol.value && end < ADDRESSES
}

/// It lies inside a loaded section that holds no code.
fn has_owner(file: &LoadedFile, symbol: &Symbol) -> bool
    ensures { result ≡ has_owner (plain_view file.now.view.now) (plain_symbol symbol.now) }
{
    let number = symbol.section as usize;
    if number >= file.view.sections.len() {
        return false;
    }
    let owner = &file.view.sections[number];
    file.is_loaded(number) && !is_executable(owner) && lies_in(owner, symbol)
}

/// A section holds code.
pub(crate) fn is_executable(section: &Section) -> bool
    ensures { result ≡ is_executable (plain_section section.now) }
{
    (section.flags >> EXECUTABLE_BIT) & 1 == 1
}

/// A symbol lies inside a section, ends included.
fn lies_in(section: &Section, symbol: &Symbol) -> bool
    ensures { result ≡ lies_in section.now.addr section.now.size symbol.now.value symbol.now.size }
{
    let section_end = u64::from(section.addr) + u64::from(section.size);
    let symbol_end = u64::from(symbol.value) + u64::from(symbol.size);
    section.addr <= symbol.value && symbol_end <= section_end
}
