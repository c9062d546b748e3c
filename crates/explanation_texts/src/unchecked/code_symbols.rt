use crate::unchecked::records::{RawSymbol, UncheckedFile};
use crate::unchecked::section_map::SectionMap;
use std::alloc::{AllocError, Global};

/// The functions and labels of a file, in which many addresses are looked up.
#[derive(Drop)]
pub struct CodeSymbols {
    sections: SectionMap,
    /// By section, then by address; those of one address as the file has them.
    symbols: Vec<RawSymbol>,
}

impl CodeSymbols {
    /// Those of the first symbol table. It fails only where no memory was left.
    ///
    /// The time grows with n log n, where n is the number of sections and symbols.
    pub fn of(alloc: Global, file: &UncheckedFile) -> Result<CodeSymbols, AllocError> {
        let mut symbols = Vec::new(alloc);
        if let Some(table) = file.symbol_table() {
            for k in 0..table.symbol_count() {
                let symbol = file.symbol(&table, k);
                if file.names_code(&symbol) {
                    symbols.push(symbol)?;
                }
            }
        }
        symbols.sort_by_key(|symbol| (symbol.section, symbol.value))?;
        Ok(CodeSymbols {
            sections: SectionMap::of(alloc, file)?,
            symbols,
        })
    }

    /// The symbol that `UncheckedFile::code_symbol` finds. The time grows with the logarithm of the number of symbols.
    pub fn code_symbol(&self, address: u32) -> Option<RawSymbol> {
        let section = self.sections.section_at(address)?;
        let count = self.symbols.partition_point(|symbol| (symbol.section, symbol.value)
            <= (section, address));
        let symbol = *self.symbols.get(count.checked_sub(1)?)?;
        if symbol.section == section {
            Some(symbol)
        } else {
            None
        }
    }
}
