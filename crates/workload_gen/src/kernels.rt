//! The kernels of the workload, as they are drawn, and what they put into the file.
ghost use Rattle.std.specs.Prelude.{◌≡◌, ℕ, ◌+◌, ◌*◌, ◌/◌, ◌<◌, ◌≤◌, List, [], ◌∷◌, ◌++◌, map, All, IfOk, OnOk};
ghost use Rattle.std.specs.List.{flat_map};
ghost use Rattle.workload_gen.specs.{Plan.{symbol_plan}, Workload.{next_state, table_below}, Kernels.{IsSmall, drawn_kernels, kernel_code, kernel_table, table_symbol_plans}};

use crate::instructions::{add, addi, bne_back, lui, lw};
use crate::spec::SymbolSpec;
use std::alloc::{AllocError, Global};

/// The greatest number of kernels.
pub(crate) const MAX_KERNELS: u32 = 64;

/// Where the tables begin.
pub(crate) const TABLES_START: u32 = 0x1_2000;

/// `jalr x0, 0(x1)`, which returns.
const RET: u32 = 0x0000_8067;

/// -1 in twelve bits.
pub(crate) const MINUS_ONE: u32 = 0xfff;

/// A linear congruential generator modulo 2^32, which gives the upper half of each state.
#[derive(Drop)]
struct Generator {
    state: u32,
}

impl Generator {
    ghost use Rattle.workload_gen.specs.Kernels.{kernel_at};

    /// The upper half of the next state.
    fn draw(&mut self) -> u32
        ensures state { self.new.state ≡ next_state self.old.state }
        ensures value { result ≡ next_state self.old.state / 65536 }
    {
        self.state = self
            .state
            .wrapping_mul(1_664_525)
            .wrapping_add(1_013_904_223);
        self.state >> 16
    }

    /// The next kernel: the words of its table are drawn first, and then its passes.
    fn draw_kernel(&mut self, number: u32, table_at: u32) -> Kernel
        ensures state { self.new.state ≡ next_state (next_state self.old.state) }
        ensures kernel { result ≡ kernel_at self.old.state number table_at }
    {
        let word_count = 16 + 16 * (self.draw() % 4);
        let pass_count = 4 + self.draw() % 8;
        Kernel {
            number,
            table_at,
            word_count,
            pass_count,
        }
    }
}

/// A kernel, which sums its table some times over.
#[derive(Drop)]
pub(crate) struct Kernel {
    /// Its number, from 0.
    pub number: u32,
    /// The address of its table.
    pub table_at: u32,
    /// How many words its table has.
    pub word_count: u32,
    /// How many times it sums its table.
    pub pass_count: u32,
}

impl Kernel {
    ghost use Rattle.workload_gen.specs.Kernels.{table_symbol_plan};

    /// Appends its instructions: x14 counts the passes; x10 goes through the table to its end, x11; each
    /// word is added to x9.
    fn push_code(&self, words: &mut Vec<u32>) -> Result<(), AllocError>
        requires { IsSmall self.now }
        ensures { OnOk result (words.new.items ≡ words.old.items ++ kernel_code self.now) }
    {
        words.extend_from_slice(&[
            addi(14, 0, self.pass_count),
            lui(10, self.table_at),
            addi(10, 10, self.table_at),
            addi(11, 10, 4 * self.word_count),
            lw(13, 10),
            add(9, 9, 13),
            addi(10, 10, 4),
            bne_back(10, 11, 12),
            addi(14, 14, MINUS_ONE),
            bne_back(14, 0, 32),
            RET,
        ])
    }

    /// Appends its table, of which word j is its number + j.
    fn push_table(&self, words: &mut Vec<u32>) -> Result<(), AllocError>
        requires { IsSmall self.now }
        ensures { OnOk result (words.new.items ≡ words.old.items ++ table_below self.now.number self.now.word_count) }
    {
        for j in 0..self.word_count {
            words.push(self.number + j)?;
        }
        Ok(())
    }

    /// The symbol of its table.
    fn table_symbol(&self, alloc: Global) -> Result<SymbolSpec, AllocError>
        requires { IsSmall self.now }
        ensures { IfOk result (λ symbol. symbol_plan symbol ≡ table_symbol_plan self.now) }
    {
        let number = self.number;
        Ok(SymbolSpec {
            name: format!(in alloc; "t{number}")?,
            value: self.table_at,
            size: 4 * self.word_count,
            kind: 1,
            section: 2,
        })
    }
}

/// The kernels of a seed, each with its table behind the one before.
pub(crate) fn draw_kernels(
    alloc: Global,
    seed: u32,
    kernels: u32,
) -> Result<Vec<Kernel>, AllocError>
    requires { kernels ≤ MAX_KERNELS }
    ensures drawn { IfOk result (λ drawn. drawn.items ≡ drawn_kernels seed kernels) }
    ensures small { IfOk result (λ drawn. All IsSmall drawn.items) }
{
    let mut generator = Generator { state: seed };
    let mut table_at = TABLES_START;
    let mut drawn = Vec::new(alloc);
    for number in 0..kernels {
        let kernel = generator.draw_kernel(number, table_at);
        table_at += 4 * kernel.word_count;
        drawn.push(kernel)?;
    }
    Ok(drawn)
}

/// Appends the instructions of kernels, and their tables.
pub(crate) fn push_kernels(
    code: &mut Vec<u32>,
    tables: &mut Vec<u32>,
    kernels: &[Kernel],
) -> Result<(), AllocError>
    requires { All IsSmall kernels.now }
    ensures code { OnOk result (code.new.items ≡ code.old.items ++ flat_map kernel_code kernels.now) }
    ensures tables { OnOk result (tables.new.items ≡ tables.old.items ++ flat_map kernel_table kernels.now) }
{
    for kernel in kernels {
        kernel.push_code(code)?;
        kernel.push_table(tables)?;
    }
    Ok(())
}

/// Appends the symbols of the tables of kernels.
pub(crate) fn push_table_symbols(
    alloc: Global,
    symbols: &mut Vec<SymbolSpec>,
    kernels: &[Kernel],
) -> Result<(), AllocError>
    requires { All IsSmall kernels.now }
    ensures { OnOk result (map symbol_plan symbols.new.items ≡ map symbol_plan symbols.old.items ++ flat_map table_symbol_plans kernels.now) }
{
    for kernel in kernels {
        symbols.push(kernel.table_symbol(alloc)?)?;
    }
    Ok(())
}
