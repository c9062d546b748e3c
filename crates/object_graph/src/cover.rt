ghost use Rattle.std.specs.Prelude.{◌≡◌, ℕ, ◌+◌, ◌<◌, Bool, length, if◌then◌else◌, IfOk};
ghost use Rattle.std.specs.List.{count_by};
ghost use Rattle.list_checks.specs.{Tests.{any_below}, Sorted.{count_below}};
ghost use Rattle.elf_reader.specs.File.{plain_symbol, plain_view};
ghost use Rattle.loaded_file.specs.Records.{target};
ghost use Rattle.object_graph.specs.Shares.{bound_of, bounds_by, holds_address, IsCover};

use elf_reader::{ElfView, Reloc, Symbol};
use list_checks::{arrange, count_under};
use loaded_file::{LoadedFile, has_range, target};
use std::alloc::{AllocError, Global};

/// The homes and the ends of all objects, each ascending. Objects may overlap.
#[derive(Drop)]
pub(crate) struct Cover {
    homes: Vec<u64>,
    ends: Vec<u64>,
}

/// Which of the two bounds of an object.
#[derive(Clone, Copy)]
pub(crate) enum Bound {
    Home,
    End,
}

/// The cover of a program's objects. It fails only where no memory was left.
pub(crate) fn object_cover(alloc: Global, file: &LoadedFile) -> Result<Cover, AllocError>
    ensures { IfOk result (IsCover (plain_view file.now.view.now)) }
{
    let mut homes = bounds(alloc, file, Bound::Home)?;
    let mut ends = bounds(alloc, file, Bound::End)?;
    arrange(&mut homes);
    arrange(&mut ends);
    Ok(Cover { homes, ends })
}

/// Whether the target of a relocation lies in an object: more of these begin at or before it than end there.
pub(crate) fn is_covered(view: &ElfView, cover: &Cover, reloc: &Reloc) -> bool
    requires { IsCover (plain_view view.now) cover.now }
    ensures { result ≡ any_below (holds_address (plain_view view.now) (target (plain_view view.now) reloc.now)) (length (plain_view view.now).symbols) }
{
    let behind = u64::from(target(view, reloc)) + 1;
    count_under(&cover.ends, behind) < count_under(&cover.homes, behind)
}

/// Adds where the object of symbol `k` begins, or where it ends.
fn push_bound(
    bounds: &mut Vec<u64>,
    file: &LoadedFile,
    bound: Bound,
    k: usize,
) -> Result<(), AllocError>
    requires below { k < length file.now.view.now.symbols.items }
    ensures { IfOk result (λ _. (test : ℕ → Bool) → count_by test bounds.new.items ≡ count_by test bounds.old.items + (if bounds_by (plain_view file.now.view.now) bound test k then 1 else 0)) }
{
    let symbol = &file.view.symbols[k];
    if has_range(file, symbol) {
        bounds.push(bound_of(symbol, bound))?;
    }
    Ok(())
}

/// Where the objects begin, or where they end.
fn bounds(alloc: Global, file: &LoadedFile, bound: Bound) -> Result<Vec<u64>, AllocError>
    ensures { IfOk result (λ bounds. (test : ℕ → Bool) → count_by test bounds.items ≡ count_below (bounds_by (plain_view file.now.view.now) bound test) (length (plain_view file.now.view.now).symbols)) }
{
    let mut bounds = Vec::new(alloc);
    for k in 0..file.view.symbols.len() {
        push_bound(&mut bounds, file, bound, k)?;
    }
    Ok(bounds)
}

/// A bound of an object.
fn bound_of(symbol: &Symbol, bound: Bound) -> u64
    ensures { result ≡ bound_of bound (plain_symbol symbol.now) }
{
    match bound {
        Bound::Home => u64::from(symbol.value),
        Bound::End => u64::from(symbol.value) + u64::from(symbol.size),
    }
}
