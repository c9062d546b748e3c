ghost use Rattle.std.specs.Prelude.{◌≡◌, ℕ, List, None};
ghost use Rattle.elf_reader.specs.{Faults.{first_fault}, File.{load_segments}, Loadable.{AreBytes, AreLoadable, AreDisjoint}, Loaded.{LoadedBytes}};

/// The segments of a file without a fault fit into their memory, which ends below 2 ^ 32.
pub fn segments_are_loadable()
    ensures { (file : List ℕ) → AreBytes file → first_fault file ≡ None → AreLoadable (load_segments file) }
{}

/// No two segments of a file without a fault share an address.
pub fn segments_are_disjoint()
    ensures { (file : List ℕ) → first_fault file ≡ None → AreDisjoint (load_segments file) }
{}

/// The memory of a loaded section of a file without a fault holds its content, and zeros where it has none.
pub fn loaded_bytes()
    ensures { LoadedBytes }
{}
