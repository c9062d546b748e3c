ghost use Rattle.std.specs.Prelude.{◌≡◌, ℕ, List, ◌<◌, length, IfOk, OnOk, IfSome};
ghost use Rattle.list_checks.specs.First.{◌or_else◌};
ghost use Rattle.elf_reader.specs.File.{plain_view};
ghost use Rattle.loaded_file.specs.Records.{symbol_at};
ghost use Rattle.region_former.specs.{Naming.{function_named, named_by, AreOrdered}, Named.{place_named, AreNames}};

use crate::naming::function_of_symbol;
use code_blocks::Code;
use elf_reader::ElfView;
use std::alloc::{AllocError, Global};
use std::collections::BTreeMap;

/// The functions of a program by the names of their symbols.
#[derive(Drop)]
pub(crate) struct FunctionNames<'a> {
    view: &'a ElfView<'a>,
    code: &'a Code,
    /// The place of the function for which a name stands, of each name that stands for one.
    places: BTreeMap<&'a [u8], usize>,
}

/// The functions of a program by name. The time grows with n log n, where n is the number of symbols.
pub(crate) fn function_names<'a>(
    alloc: Global,
    view: &'a ElfView<'a>,
    code: &'a Code,
) -> Result<FunctionNames<'a>, AllocError>
    requires { AreOrdered code.now.functions.items }
    ensures names { IfOk result AreNames }
    ensures view { IfOk result (λ names. names.view.now ≡ view.now) }
    ensures code { IfOk result (λ names. names.code.now ≡ code.now) }
{
    let mut names = FunctionNames {
        view,
        code,
        places: BTreeMap::new(alloc),
    };
    for k in 0..view.symbols.len() {
        names.add(k)?;
    }
    Ok(names)
}

/// The name of symbol `k`.
fn name_of<'a>(view: &ElfView<'a>, k: usize) -> &'a [u8]
    requires { k < length view.now.symbols.items }
    ensures { result.now ≡ (symbol_at (plain_view view.now) k).name }
{
    view.symbols[k].name
}

impl<'a> FunctionNames<'a> {
    /// Adds the name of symbol `k`, if that is of a function and no earlier one has the name.
    fn add(&mut self, k: usize) -> Result<(), AllocError>
        requires ordered { AreOrdered self.old.code.now.functions.items }
        requires symbol { k < length self.old.view.now.symbols.items }
        ensures view { self.new.view ≡ self.old.view }
        ensures code { self.new.code ≡ self.old.code }
        ensures places { OnOk result ((name : List ℕ) → place_named self.new.places name ≡ place_named self.old.places name or_else named_by (plain_view self.old.view.now) self.old.code.now.functions.items name k) }
    {
        let name = name_of(self.view, k);
        let Some(place) = function_of_symbol(self.view, self.code, k) else {
            return Ok(());
        };
        if !self.places.contains_key(name) {
            self.places.insert(name, place)?;
        }
        Ok(())
    }

    /// The function that a name stands for. The time grows with the logarithm of the number of names.
    pub(crate) fn find(&self, name: &[u8]) -> Option<usize>
        requires { AreNames self.now }
        ensures place { result ≡ function_named (plain_view self.now.view.now) self.now.code.now.functions.items name.now }
        ensures below { IfSome result (λ f. f < length self.now.code.now.functions.items) }
    {
        self.places.get(name).copied()
    }
}
