ghost use Rattle.std.specs.Prelude.{◌≡◌, IfOk};
ghost use Rattle.elf_reader.specs.File.{plain_view};
ghost use Rattle.loaded_file.specs.{Marks.{all_loaded}, Reaches.{AreListed, AreListed-prop}};

use crate::loaded::loaded_sections;
use crate::reaches::{Reach, SectionKind, reaches, section_over};
use elf_reader::ElfView;
use std::alloc::{AllocError, Global};

/// A file, and which of its sections are loaded.
#[derive(Drop)]
pub struct LoadedFile<'a> {
    /// The file's records.
    pub view: &'a ElfView<'a>,
    /// Whether each section is loaded, in the order of the sections: it has memory, and some segment puts its bytes,
    /// which no other section, no other segment and no table of headers shares, at its address.
    pub loaded: Vec<bool>,
    /// How far the code ranges reach, by address.
    code_ranges: Vec<Reach>,
    /// How far the loaded sections with content reach that hold no code.
    data_ranges: Vec<Reach>,
    pub ghost marks: { loaded.items ≡ all_loaded (plain_view view.now) },
    ghost listed: { AreListed (plain_view view.now) code_ranges.items data_ranges.items } by { AreListed-prop (plain_view view.now) code_ranges.items data_ranges.items },
}

impl<'a> LoadedFile<'a> {
    ghost use Rattle.std.specs.Prelude.{◌≡◌, ◌<◌, true, false, length, IfOk, MatchOption};
    ghost use Rattle.list_checks.specs.Tests.{any_below};
    ghost use Rattle.elf_reader.specs.{File.{plain_view}, Loaded.{is_loaded}};
    ghost use Rattle.loaded_file.specs.Reaches.{holds_range};

    /// A view with the marks of its loaded sections. It fails only where no memory was left.
    ///
    /// The time grows with n log n, where n is the number of sections, and with n times the number of segments.
    #[tactic(auto, unfolding(crate::specs::Reaches::AreListed))]
    pub fn of(alloc: Global, view: &'a ElfView<'a>) -> Result<LoadedFile<'a>, AllocError>
        ensures { IfOk result (λ file. file.view.now ≡ view.now) }
    {
        let loaded = loaded_sections(alloc, view)?;
        let code_ranges = reaches(alloc, view, &loaded, SectionKind::Code)?;
        let data_ranges = reaches(alloc, view, &loaded, SectionKind::Data)?;
        Ok(LoadedFile {
            view,
            loaded,
            code_ranges,
            data_ranges,
        })
    }

    /// Whether section `k` is loaded.
    pub fn is_loaded(&self, k: usize) -> bool
        requires below { k < length self.now.view.now.sections.items }
        ensures { result ≡ is_loaded (plain_view self.now.view.now) k }
    {
        self.loaded[k]
    }

    /// The number of a section of a kind that has the `size` bytes from `address`, if one has.
    ///
    /// The time grows with the logarithm of the number of sections.
    #[tactic(auto, unfolding(crate::specs::Reaches::AreListed))]
    pub fn section_over(&self, kind: SectionKind, address: u32, size: u32) -> Option<usize>
        ensures { MatchOption result (any_below (holds_range kind (plain_view self.now.view.now) address size) (length (plain_view self.now.view.now).sections) ≡ false) (λ k. (k < length (plain_view self.now.view.now).sections) × (holds_range kind (plain_view self.now.view.now) address size k ≡ true)) }
    {
        match kind {
            SectionKind::Code => section_over(&self.code_ranges, address, size),
            SectionKind::Data => section_over(&self.data_ranges, address, size),
        }
    }
}
