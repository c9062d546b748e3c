ghost use Rattle.std.specs.Prelude.{◌≡◌, ◌<◌, length, IfSome};
ghost use Rattle.elf_reader.specs.File.{plain_view};
ghost use Rattle.code_blocks.specs.Blocks.{IsFunctionOf};
ghost use Rattle.region_former.specs.{Naming.{function_at, is_named, named_by, function_named, AreOrdered}, Named.{function_of_symbol}};

use code_blocks::Code;
use elf_reader::ElfView;

/// The type of a function's symbol (`STT_FUNC`).
const STT_FUNC: u8 = 2;

/// The function in whose range an address lies: its place among those of the code.
pub(crate) fn function_of(code: &Code, address: u32) -> Option<usize>
    requires { AreOrdered code.now.functions.items }
    ensures { IsFunctionOf code.now.functions.items address result }
{
    code_blocks::function_of(&code.functions, address)
}

/// The function that starts at an address.
fn function_at(code: &Code, address: u32) -> Option<usize>
    requires { AreOrdered code.now.functions.items }
    ensures place { result ≡ function_at code.now.functions.items address }
    ensures below { IfSome result (λ f. f < length code.now.functions.items) }
{
    match function_of(code, address) {
        Some(place) => {
            if code.functions[place].start == address {
                Some(place)
            } else {
                None
            }
        }
        None => None,
    }
}

/// The function that a name stands for: that at the value of the first symbol of a function with this name at
/// whose value one starts. The time grows with the number of symbols.
pub(crate) fn function_named(view: &ElfView, code: &Code, name: &[u8]) -> Option<usize>
    requires { AreOrdered code.now.functions.items }
    ensures named { result ≡ function_named (plain_view view.now) code.now.functions.items name.now }
    ensures below { IfSome result (λ f. f < length code.now.functions.items) }
{
    for k in 0..view.symbols.len() {
        if let Some(place) = named_by(view, code, name, k) {
            return Some(place);
        }
    }
    None
}

/// The function that starts at the value of symbol `k`, if that is of a function.
pub(crate) fn function_of_symbol(view: &ElfView, code: &Code, k: usize) -> Option<usize>
    requires ordered { AreOrdered code.now.functions.items }
    requires symbol { k < length view.now.symbols.items }
    ensures place { result ≡ function_of_symbol (plain_view view.now) code.now.functions.items k }
    ensures below { IfSome result (λ f. f < length code.now.functions.items) }
{
    let symbol = &view.symbols[k];
    if symbol.kind == STT_FUNC {
        function_at(code, symbol.value)
    } else {
        None
    }
}

/// The function that starts at the value of symbol `k`, if that has the name.
fn named_by(view: &ElfView, code: &Code, name: &[u8], k: usize) -> Option<usize>
    requires ordered { AreOrdered code.now.functions.items }
    requires symbol { k < length view.now.symbols.items }
    ensures place { result ≡ named_by (plain_view view.now) code.now.functions.items name.now k }
    ensures below { IfSome result (λ f. f < length code.now.functions.items) }
{
    if is_named(view, name, k) {
        function_at(code, view.symbols[k].value)
    } else {
        None
    }
}

/// Symbol `k` is of a function and has this name.
fn is_named(view: &ElfView, name: &[u8], k: usize) -> bool
    requires { k < length view.now.symbols.items }
    ensures { result ≡ is_named (plain_view view.now) name.now k }
{
    let symbol = &view.symbols[k];
    symbol.kind == STT_FUNC && symbol.name == name
}
