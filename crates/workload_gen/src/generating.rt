ghost use Rattle.std.specs.Prelude.{◌≡◌, ℕ, ◌+◌, ◌^◌, ◌<◌, ◌≤◌, ◌++◌, map, length, All, IfOk, OnOk};
ghost use Rattle.workload_gen.specs.{Plan.{section_plan, symbol_plan, file_plan}, Built.{built}, Workload.{address_relocations, kernel_relocations_below, kernel_symbols_below, text_relocations, workload_plan, text_plan, tables_plan, out_plan, words_plan, kernel_symbol_plan}, Kernels.{IsSmall}, Parts.{symbol_plans}};
ghost use Rattle.elf_writer.specs.Pieces.{words_bytes};

use crate::building::build;
use crate::kernels::{
    Kernel, MAX_KERNELS, TABLES_START, draw_kernels, push_kernels, push_table_symbols,
};
use crate::main_function::{
    KERNEL_SIZE, OUT_START, TEXT_START, kernel_start, main_size, push_main,
};
use crate::spec::{FileSpec, SectionSpec, SymbolSpec};
use elf_reader::{R_RISCV_HI20, R_RISCV_LO12_I, Reloc};
use std::alloc::{AllocError, Global};

/// An executable file of `kernels` kernels, 1 to 64, whose sizes and pass counts are drawn from `seed`.
///
/// Its main function calls each kernel ten times. A kernel sums the words of its own table some times over.
/// The sum of all is written, its four bytes least first, and the program exits with 0. Symbols name main,
/// the kernels (`k0`, `k1`, ..), their tables (`t0`, `t1`, ..) and the word `out`; and each use of an
/// address has its relocations.
pub fn workload(alloc: Global, seed: u32, kernels: u32) -> Result<Vec<u8>, AllocError>
    requires one { 1 ≤ kernels }
    requires most { kernels ≤ 64 }
    ensures { IfOk result (λ bytes. bytes.items ≡ built (workload_plan seed kernels)) }
{
    let spec = workload_spec(alloc, seed, kernels)?;
    let bytes = build(alloc, &spec)?;
    Ok(bytes)
}

/// What the file of the workload holds.
fn workload_spec(alloc: Global, seed: u32, kernels: u32) -> Result<FileSpec, AllocError>
    requires { kernels ≤ MAX_KERNELS }
    ensures { IfOk result (λ spec. file_plan spec ≡ workload_plan seed kernels) }
{
    let drawn = draw_kernels(alloc, seed, kernels)?;
    let mut code = Vec::new(alloc);
    push_main(&mut code, kernels)?;
    let mut tables = Vec::new(alloc);
    push_kernels(&mut code, &mut tables, &drawn)?;
    let text = text_section(alloc, kernels, &code)?;
    let rodata = table_section(alloc, &tables)?;
    let out = out_section(alloc)?;
    Ok(FileSpec {
        entry: TEXT_START,
        sections: vec![in alloc; text, rodata, out]?,
        symbols: workload_symbols(alloc, kernels, &drawn)?,
    })
}

/// The section of the instructions.
fn text_section(alloc: Global, kernels: u32, code: &[u32]) -> Result<SectionSpec, AllocError>
    requires { kernels ≤ MAX_KERNELS }
    ensures { IfOk result (λ section. section_plan section ≡ text_plan kernels code.now) }
{
    let relocs = relocations_of_text(alloc, kernels)?;
    words_section(alloc, ".text", TEXT_START, 6, code, relocs)
}

/// The section of the tables.
fn table_section(alloc: Global, tables: &[u32]) -> Result<SectionSpec, AllocError>
    ensures { IfOk result (λ section. section_plan section ≡ tables_plan tables.now) }
{
    words_section(alloc, ".rodata", TABLES_START, 2, tables, Vec::new(alloc))
}

/// The section of the sum.
fn out_section(alloc: Global) -> Result<SectionSpec, AllocError>
    ensures { IfOk result (λ section. section_plan section ≡ out_plan) }
{
    words_section(alloc, ".data", OUT_START, 3, &[0], Vec::new(alloc))
}

/// A section of words.
fn words_section(
    alloc: Global,
    name: &str,
    addr: u32,
    flags: u32,
    words: &[u32],
    relocs: Vec<Reloc>,
) -> Result<SectionSpec, AllocError>
    ensures { IfOk result (λ section. section_plan section ≡ words_plan name.now addr flags words.now relocs.items) }
{
    Ok(SectionSpec {
        name: String::from_str(alloc, name)?,
        addr,
        flags,
        empty: 0,
        bytes: bytes_of_words(alloc, words)?,
        relocs,
    })
}

/// Words as bytes, each with its least byte first.
fn bytes_of_words(alloc: Global, words: &[u32]) -> Result<Vec<u8>, AllocError>
    ensures { IfOk result (λ bytes. bytes.items ≡ words_bytes words.now) }
{
    let mut bytes = Vec::new(alloc);
    for word in words {
        bytes.extend_from_slice(&word.to_le_bytes())?;
    }
    Ok(bytes)
}

/// The relocations of the instructions: of main's use of `out`, and of each kernel's use of its table.
fn relocations_of_text(alloc: Global, kernels: u32) -> Result<Vec<Reloc>, AllocError>
    requires { kernels ≤ MAX_KERNELS }
    ensures { IfOk result (λ relocs. relocs.items ≡ text_relocations kernels) }
{
    let mut relocs = Vec::new(alloc);
    push_address(&mut relocs, TEXT_START + 4 * (kernels + 4), 2 + 2 * kernels)?;
    push_kernel_relocations(&mut relocs, kernels)?;
    Ok(relocs)
}

/// Appends the relocations of each kernel's use of its table.
fn push_kernel_relocations(relocs: &mut Vec<Reloc>, kernels: u32) -> Result<(), AllocError>
    requires { kernels ≤ MAX_KERNELS }
    ensures { OnOk result (relocs.new.items ≡ relocs.old.items ++ kernel_relocations_below kernels kernels) }
{
    for i in 0..kernels {
        push_address(relocs, kernel_start(kernels, i) + 4, 1 + kernels + (i + 1))?;
    }
    Ok(())
}

/// Appends the relocations of a `lui` at `at` and the `addi` behind it, which make up a symbol's address.
fn push_address(relocs: &mut Vec<Reloc>, at: u32, symbol: u32) -> Result<(), AllocError>
    requires { at + 4 < 2 ^ 32 }
    ensures { OnOk result (relocs.new.items ≡ relocs.old.items ++ address_relocations at symbol) }
{
    let upper = Reloc {
        at,
        kind: R_RISCV_HI20,
        symbol,
        addend: 0,
        section: 0,
    };
    let lower = Reloc {
        at: at + 4,
        kind: R_RISCV_LO12_I,
        symbol,
        addend: 0,
        section: 0,
    };
    relocs.extend_from_slice(&[upper, lower])
}

/// The symbols of main, the kernels, their tables and `out`.
fn workload_symbols(
    alloc: Global,
    kernels: u32,
    drawn: &[Kernel],
) -> Result<Vec<SymbolSpec>, AllocError>
    requires most { kernels ≤ MAX_KERNELS }
    requires small { All IsSmall drawn.now }
    ensures { IfOk result (λ symbols. map symbol_plan symbols.items ≡ symbol_plans kernels drawn.now) }
{
    let mut symbols = Vec::new(alloc);
    symbols.push(SymbolSpec {
        name: String::from_str(alloc, "main")?,
        value: TEXT_START,
        size: main_size(kernels),
        kind: 2,
        section: 1,
    })?;
    push_kernel_symbols(alloc, &mut symbols, kernels)?;
    push_table_symbols(alloc, &mut symbols, drawn)?;
    symbols.push(SymbolSpec {
        name: String::from_str(alloc, "out")?,
        value: OUT_START,
        size: 4,
        kind: 1,
        section: 3,
    })?;
    Ok(symbols)
}

/// Appends the symbols of the kernels.
fn push_kernel_symbols(
    alloc: Global,
    symbols: &mut Vec<SymbolSpec>,
    kernels: u32,
) -> Result<(), AllocError>
    requires { kernels ≤ MAX_KERNELS }
    ensures { OnOk result (map symbol_plan symbols.new.items ≡ map symbol_plan symbols.old.items ++ kernel_symbols_below kernels kernels) }
{
    for i in 0..kernels {
        symbols.push(kernel_symbol(alloc, kernels, i)?)?;
    }
    Ok(())
}

/// The symbol of kernel `i` of `kernels`.
fn kernel_symbol(alloc: Global, kernels: u32, i: u32) -> Result<SymbolSpec, AllocError>
    requires kernels { kernels ≤ MAX_KERNELS }
    requires i { i < kernels }
    ensures { IfOk result (λ symbol. symbol_plan symbol ≡ kernel_symbol_plan kernels i) }
{
    Ok(SymbolSpec {
        name: format!(in alloc; "k{i}")?,
        value: kernel_start(kernels, i),
        size: KERNEL_SIZE,
        kind: 2,
        section: 1,
    })
}
