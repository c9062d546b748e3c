ghost use Rattle.std.specs.Prelude.{◌≡◌, ◌≢◌, ℕ, ◌+◌, ◌*◌, ◌/◌, ◌%◌, ◌<◌, ◌≤◌, None, length, slice_index_or, take, IsTrue, IsFalse, IsSome, IsOk, OnOk, OnErr};
ghost use Rattle.cell_values.specs.{declared.values.Cell.TheVariants.{Byte, Mist}, Cells.{put_at, put_cells, join, split, bytes_of}, Marks.{AreWhole, AreMarked, mark_of, IsCount, half_of_cells}};
ghost use Rattle.cell_values.specs.Rows.{entry_at, rows_of, cells_in, HasRow};
ghost use Rattle.paged_store.specs.Pages.{has_page};

use crate::marks::{add_mark, has_no_mark, make_marks};
use crate::word_table::WordTable;
use crate::{Cell, Val, join, reloaded, split};
use paged_store::{ByteStore, PageStore};
use std::alloc::{AllocError, Global};

/// A memory of cells at 32-bit addresses. An address at which nothing was ever put holds the byte 0.
#[derive(Drop)]
pub struct CellStore {
    bytes: PageStore,
    // the values of words in which one was put that is no number; they stand before the bytes
    values: WordTable<Val>,
    // the cells of words in which cells were put singly; they stand before the values
    cells: WordTable<[Cell; 4]>,
    // the mark of each word that has an entry is not 0; words far apart share a mark. Empty before the first
    marks: Vec<u8>,
    ghost whole: { AreWhole marks.items },
    ghost marked: { AreMarked (cells_in (rows_of values cells)) marks.items },
}

impl CellStore {
    ghost use Rattle.cell_values.specs.Stored.{cells_of, HasPlace};

    /// The store of bytes 0. It takes no memory.
    pub fn new(alloc: Global) -> CellStore
        ensures { cells_of result ≡ λ _. Byte 0 }
    {
        CellStore {
            bytes: PageStore::new(alloc),
            values: WordTable::new(alloc),
            cells: WordTable::new(alloc),
            marks: Vec::new(alloc),
        }
    }

    // What a machine reads and writes in each step is inlined as far as words have bytes alone.

    /// Whether the `count` cells from an address on are in one word, which has bytes alone.
    #[inline(always)]
    fn is_plain(&self, at: u32, count: u32) -> bool
        ensures { IsTrue result → (k : ℕ) → k < count → cells_in (rows_of self.now.values self.now.cells) (at + k) ≡ None }
    {
        count <= 4 - at % 4 && has_no_mark(&self.marks, at)
    }

    /// The cell at an address.
    #[inline(always)]
    pub fn get(&self, at: u32) -> Cell
        ensures { result ≡ cells_of self.now at }
    {
        if self.is_plain(at, 1) {
            return Cell::Byte(self.bytes.get(at));
        }
        self.found(at)
    }

    /// The cells of the word of an address, if it has other ones than bytes.
    #[inline(always)]
    fn row(&self, at: u32) -> Option<[Cell; 4]>
        ensures { result ≡ rows_of self.now.values self.now.cells (at / 4) }
    {
        match self.cells.get(at) {
            Some(cells) => Some(cells),
            None => match self.values.get(at) {
                Some(value) => Some(split(&value)),
                None => None,
            },
        }
    }

    /// The cell at any address.
    #[inline(never)]
    fn found(&self, at: u32) -> Cell
        ensures { result ≡ cells_of self.now at }
    {
        match self.row(at) {
            Some(cells) => cells[at as usize % 4],
            None => Cell::Byte(self.bytes.get(at)),
        }
    }

    /// The halfword of the two cells from an address on, if they are plain bytes.
    #[inline(always)]
    pub fn half(&self, at: u32) -> Option<u16>
        requires { at + 2 ≤ 4294967296 }
        ensures { result ≡ half_of_cells (cells_of self.now at) (cells_of self.now (at + 1)) }
    {
        if self.is_plain(at, 2) {
            return Some(self.bytes.get_half(at));
        }
        match (self.found(at), self.found(at + 1)) {
            (Cell::Byte(low), Cell::Byte(high)) => Some(u16::from_le_bytes([low, high])),
            _ => None,
        }
    }

    /// The word of the four cells from an address on.
    #[inline(always)]
    pub fn word(&self, at: u32) -> Val
        requires { at + 4 ≤ 4294967296 }
        ensures { result ≡ join (cells_of self.now at) (cells_of self.now (at + 1)) (cells_of self.now (at + 2)) (cells_of self.now (at + 3)) }
    {
        if self.is_plain(at, 4) {
            return Val::Int(self.bytes.get_word(at));
        }
        if at % 4 == 0 {
            return self.whole_word(at);
        }
        self.joined(at)
    }

    /// That of the cells of one word.
    #[inline(never)]
    fn whole_word(&self, at: u32) -> Val
        requires within { at + 4 ≤ 4294967296 }
        requires aligned { at % 4 ≡ 0 }
        ensures { result ≡ join (cells_of self.now at) (cells_of self.now (at + 1)) (cells_of self.now (at + 2)) (cells_of self.now (at + 3)) }
    {
        match self.cells.get(at) {
            Some(cells) => join(cells),
            None => match self.values.get(at) {
                Some(value) => reloaded(&value),
                None => Val::Int(self.bytes.get_word(at)),
            },
        }
    }

    /// That of any cells.
    #[cold]
    #[inline(never)]
    fn joined(&self, at: u32) -> Val
        requires { at + 4 ≤ 4294967296 }
        ensures { result ≡ join (cells_of self.now at) (cells_of self.now (at + 1)) (cells_of self.now (at + 2)) (cells_of self.now (at + 3)) }
    {
        let first = self.found(at);
        let second = self.found(at + 1);
        let third = self.found(at + 2);
        let fourth = self.found(at + 3);
        join([first, second, third, fourth])
    }

    /// Puts the first `count` cells of a value at the addresses from `at` on, all or none: after an `Err`, which
    /// comes only where no memory was left, no cell has changed.
    #[inline(always)]
    pub fn set_value(&mut self, at: u32, value: &Val, count: u32) -> Result<(), AllocError>
        requires within { at + count ≤ 4294967296 }
        requires count { IsCount count }
        ensures set { OnOk result (cells_of self.new ≡ put_cells (cells_of self.old) at (take count (split value.now))) }
        ensures err { OnErr result (cells_of self.new ≡ cells_of self.old) }
    {
        match *value {
            Val::Int(n) if self.is_plain(at, count) => self.set_number(at, n, count),
            _ => self.set_marked(at, value, count),
        }
    }

    /// Puts the first `count` cells of a value in a word that has a mark, or in several words.
    #[inline(never)]
    fn set_marked(&mut self, at: u32, value: &Val, count: u32) -> Result<(), AllocError>
        requires within { at + count ≤ 4294967296 }
        requires count { IsCount count }
        ensures set { OnOk result (cells_of self.new ≡ put_cells (cells_of self.old) at (take count (split value.now))) }
        ensures err { OnErr result (cells_of self.new ≡ cells_of self.old) }
    {
        match *value {
            Val::Int(n) if self.has_bytes(at, count) => self.set_number(at, n, count),
            _ if at % 4 == 0 && count == 4 => self.set_word(at, value),
            _ => self.set_split(at, value, count),
        }
    }

    /// Puts the first `count` bytes of a number where there are bytes alone.
    #[inline(always)]
    fn set_number(&mut self, at: u32, n: u32, count: u32) -> Result<(), AllocError>
        requires within { at + count ≤ 4294967296 }
        requires count { IsCount count }
        requires plain { (k : ℕ) → k < count → cells_in (rows_of self.old.values self.old.cells) (at + k) ≡ None }
        ensures set { OnOk result (cells_of self.new ≡ put_cells (cells_of self.old) at (take count (bytes_of n))) }
        ensures err { OnErr result (cells_of self.new ≡ cells_of self.old) }
    {
        match count {
            4 => self.set_plain_word(at, n),
            2 => self.set_plain_half(at, n),
            _ => self.set_plain_byte(at, n),
        }
    }

    /// Puts a word where there are bytes alone.
    #[inline(always)]
    fn set_plain_word(&mut self, at: u32, n: u32) -> Result<(), AllocError>
        requires within { at + 4 ≤ 4294967296 }
        requires plain { (k : ℕ) → k < 4 → cells_in (rows_of self.old.values self.old.cells) (at + k) ≡ None }
        ensures set { OnOk result (cells_of self.new ≡ put_cells (cells_of self.old) at (bytes_of n)) }
        ensures err { OnErr result (cells_of self.new ≡ cells_of self.old) }
    {
        match self.bytes.set_word(at, n) {
            Ok(()) => Ok(()),
            Err(error) => Err(error),
        }
    }

    /// Puts the low halfword of a number where there are bytes alone.
    #[inline(always)]
    fn set_plain_half(&mut self, at: u32, n: u32) -> Result<(), AllocError>
        requires within { at + 2 ≤ 4294967296 }
        requires plain { (k : ℕ) → k < 2 → cells_in (rows_of self.old.values self.old.cells) (at + k) ≡ None }
        ensures set { OnOk result (cells_of self.new ≡ put_cells (cells_of self.old) at (take 2 (bytes_of n))) }
        ensures err { OnErr result (cells_of self.new ≡ cells_of self.old) }
    {
        match self.bytes.set_half(at, (n % 0x1_0000) as u16) {
            Ok(()) => Ok(()),
            Err(error) => Err(error),
        }
    }

    /// Puts the least byte of a number where there is a byte.
    #[inline(always)]
    fn set_plain_byte(&mut self, at: u32, n: u32) -> Result<(), AllocError>
        requires plain { (k : ℕ) → k < 1 → cells_in (rows_of self.old.values self.old.cells) (at + k) ≡ None }
        ensures set { OnOk result (cells_of self.new ≡ put_cells (cells_of self.old) at (take 1 (bytes_of n))) }
        ensures err { OnErr result (cells_of self.new ≡ cells_of self.old) }
    {
        match self.bytes.set(at, (n % 0x100) as u8) {
            Ok(()) => Ok(()),
            Err(error) => Err(error),
        }
    }

    /// Whether the word of an address has bytes alone.
    #[inline(always)]
    fn has_no_row(&self, at: u32) -> bool
        ensures none { IsTrue result → rows_of self.now.values self.now.cells (at / 4) ≡ None }
        ensures row { IsFalse result → IsSome (rows_of self.now.values self.now.cells (at / 4)) }
    {
        self.cells.get(at).is_none() && self.values.get(at).is_none()
    }

    /// Whether the `count` cells from an address on are in one word, which has bytes alone.
    #[inline(always)]
    fn has_bytes(&self, at: u32, count: u32) -> bool
        ensures { IsTrue result → (k : ℕ) → k < count → cells_in (rows_of self.now.values self.now.cells) (at + k) ≡ None }
    {
        count <= 4 - at % 4 && self.has_no_row(at)
    }

    /// Puts the four cells of a value in one word.
    #[inline(always)]
    fn set_word(&mut self, at: u32, value: &Val) -> Result<(), AllocError>
        requires within { at + 4 ≤ 4294967296 }
        requires aligned { at % 4 ≡ 0 }
        ensures set { OnOk result (cells_of self.new ≡ put_cells (cells_of self.old) at (split value.now)) }
        ensures err { OnErr result (cells_of self.new ≡ cells_of self.old) }
    {
        match self.cells.get(at) {
            Some(_) => match self.set_row(at, split(value)) {
                Ok(()) => Ok(()),
                Err(error) => Err(error),
            },
            None => self.set_entry(at, value),
        }
    }

    /// Puts the value of a word in which no cells were put singly.
    #[inline(always)]
    fn set_entry(&mut self, at: u32, value: &Val) -> Result<(), AllocError>
        requires none { entry_at self.old.cells (at / 4) ≡ None }
        requires aligned { at % 4 ≡ 0 }
        ensures set { OnOk result (cells_of self.new ≡ put_cells (cells_of self.old) at (split value.now)) }
        ensures err { OnErr result (cells_of self.new ≡ cells_of self.old) }
    {
        self.mark(at)?;
        match self.values.set(at, *value) {
            Ok(()) => Ok(()),
            Err(error) => Err(error),
        }
    }

    /// Puts the cells of a word. It is `Ok` where cells were put there singly before.
    fn set_row(&mut self, at: u32, row: [Cell; 4]) -> Result<(), AllocError>
        ensures set { OnOk result (HasRow (rows_of self.old.values self.old.cells) (rows_of self.new.values self.new.cells) at row) }
        ensures err { OnErr result (cells_of self.new ≡ cells_of self.old) }
        ensures bytes { self.new.bytes ≡ self.old.bytes }
        ensures entry { OnOk result (IsSome (entry_at self.new.cells (at / 4))) }
        ensures fits { IsSome (entry_at self.old.cells (at / 4)) → IsOk result }
        ensures stays { (a : ℕ) (other : Cell) → HasPlace self.old a other → HasPlace self.new a other }
    {
        self.mark(at)?;
        match self.cells.set(at, row) {
            Ok(()) => Ok(()),
            Err(error) => Err(error),
        }
    }

    /// Marks the word of an address. It is `Ok` where the word has a row.
    fn mark(&mut self, at: u32) -> Result<(), AllocError>
        ensures same { cells_of self.new ≡ cells_of self.old }
        ensures values { self.new.values ≡ self.old.values }
        ensures cells { self.new.cells ≡ self.old.cells }
        ensures bytes { self.new.bytes ≡ self.old.bytes }
        ensures mark { OnOk result (0 < mark_of self.new.marks.items at) }
        ensures fits { IsSome (rows_of self.old.values self.old.cells (at / 4)) → IsOk result }
    {
        match make_marks(&mut self.marks) {
            Ok(()) => {
                add_mark(&mut self.marks, at);
                Ok(())
            }
            Err(error) => Err(error),
        }
    }

    /// Puts the first `count` cells of any value.
    fn set_split(&mut self, at: u32, value: &Val, count: u32) -> Result<(), AllocError>
        requires within { at + count ≤ 4294967296 }
        requires count { IsCount count }
        ensures set { OnOk result (cells_of self.new ≡ put_cells (cells_of self.old) at (take count (split value.now))) }
        ensures err { OnErr result (cells_of self.new ≡ cells_of self.old) }
    {
        let cells = split(value);
        if count == 1 {
            return self.set(at, cells[0]);
        }
        match self.set_all(at, &cells[..count as usize]) {
            Ok(()) => Ok(()),
            Err(error) => Err(error),
        }
    }

    /// Puts a cell at an address, and changes no other. After an `Err`, which comes only where no memory was
    /// left, no cell has changed.
    pub fn set(&mut self, at: u32, cell: Cell) -> Result<(), AllocError>
        ensures set { OnOk result (cells_of self.new ≡ put_at (cells_of self.old) at cell) }
        ensures err { OnErr result (cells_of self.new ≡ cells_of self.old) }
        ensures fits { HasPlace self.old at cell → IsOk result }
        ensures stays { (a : ℕ) (other : Cell) → a ≢ at → HasPlace self.old a other → HasPlace self.new a other }
    {
        match cell {
            Cell::Byte(byte) if self.has_no_row(at) => self.set_byte(at, byte),
            _ => self.set_cell(at, cell),
        }
    }

    /// Puts a byte in a word that has bytes alone.
    fn set_byte(&mut self, at: u32, byte: u8) -> Result<(), AllocError>
        requires { rows_of self.old.values self.old.cells (at / 4) ≡ None }
        ensures set { OnOk result (cells_of self.new ≡ put_at (cells_of self.old) at (Byte byte)) }
        ensures err { OnErr result (cells_of self.new ≡ cells_of self.old) }
        ensures fits { HasPlace self.old at (Byte byte) → IsOk result }
        ensures stays { (a : ℕ) (other : Cell) → HasPlace self.old a other → HasPlace self.new a other }
    {
        match self.bytes.set(at, byte) {
            Ok(()) => Ok(()),
            Err(error) => Err(error),
        }
    }

    /// Puts a cell into the row of its word.
    fn set_cell(&mut self, at: u32, cell: Cell) -> Result<(), AllocError>
        ensures set { OnOk result (cells_of self.new ≡ put_at (cells_of self.old) at cell) }
        ensures err { OnErr result (cells_of self.new ≡ cells_of self.old) }
        ensures fits { IsSome (entry_at self.old.cells (at / 4)) → IsOk result }
        ensures stays { (a : ℕ) (other : Cell) → HasPlace self.old a other → HasPlace self.new a other }
    {
        let mut row = self.present(at);
        row[at as usize % 4] = cell;
        match self.set_row(at, row) {
            Ok(()) => Ok(()),
            Err(error) => Err(error),
        }
    }

    /// The four cells of the word of an address.
    fn present(&self, at: u32) -> [Cell; 4]
        ensures { (k : ℕ) → k < 4 → slice_index_or result k Mist ≡ cells_of self.now (at / 4 * 4 + k) }
    {
        match self.row(at) {
            Some(cells) => cells,
            None => {
                let first = at / 4 * 4;
                [
                    Cell::Byte(self.bytes.get(first)),
                    Cell::Byte(self.bytes.get(first + 1)),
                    Cell::Byte(self.bytes.get(first + 2)),
                    Cell::Byte(self.bytes.get(first + 3)),
                ]
            }
        }
    }

    /// Puts cells at the addresses from `at` on, all or none: after an `Err`, which comes only where no memory
    /// was left, no cell has changed.
    pub fn set_all(&mut self, at: u32, cells: &[Cell]) -> Result<(), AllocError>
        requires { at + length cells.now ≤ 4294967296 }
        ensures set { OnOk result (cells_of self.new ≡ put_cells (cells_of self.old) at cells.now) }
        ensures err { OnErr result (cells_of self.new ≡ cells_of self.old) }
    {
        self.make_places(at, cells)?;
        self.put_all(at, cells);
        Ok(())
    }

    /// Makes places for cells, so that they can be put without taking memory.
    fn make_places(&mut self, at: u32, cells: &[Cell]) -> Result<(), AllocError>
        requires { at + length cells.now ≤ 4294967296 }
        ensures same { cells_of self.new ≡ cells_of self.old }
        ensures places { OnOk result ((k : ℕ) → k < length cells.now → HasPlace self.new (at + k) (slice_index_or cells.now k Mist)) }
    {
        for (k, cell) in cells.iter().enumerate() {
            self.make_place(at + k as u32, cell)?;
        }
        Ok(())
    }

    /// Makes a place for a cell: a page for a byte in a word that has bytes alone, and else a row.
    fn make_place(&mut self, at: u32, cell: &Cell) -> Result<(), AllocError>
        ensures same { cells_of self.new ≡ cells_of self.old }
        ensures place { OnOk result (HasPlace self.new at cell.now) }
        ensures stays { (a : ℕ) (other : Cell) → HasPlace self.old a other → HasPlace self.new a other }
    {
        match cell {
            Cell::Byte(_) if self.has_no_row(at) => self.make_byte_place(at),
            _ => self.make_row(at),
        }
    }

    /// Makes a place for a byte in a word that has bytes alone.
    fn make_byte_place(&mut self, at: u32) -> Result<(), AllocError>
        requires { rows_of self.old.values self.old.cells (at / 4) ≡ None }
        ensures same { cells_of self.new ≡ cells_of self.old }
        ensures place { OnOk result (HasPlace self.new at (Byte 0)) }
        ensures stays { (a : ℕ) (other : Cell) → HasPlace self.old a other → HasPlace self.new a other }
    {
        match self.make_page(at) {
            Ok(()) => Ok(()),
            Err(error) => Err(error),
        }
    }

    /// Makes a page for a byte.
    fn make_page(&mut self, at: u32) -> Result<(), AllocError>
        ensures same { cells_of self.new ≡ cells_of self.old }
        ensures values { self.new.values ≡ self.old.values }
        ensures page { OnOk result (IsTrue (has_page self.new.bytes.directory.items at)) }
        ensures stays { (a : ℕ) (other : Cell) → HasPlace self.old a other → HasPlace self.new a other }
    {
        self.bytes.room(at, 1)
    }

    /// Makes a row, which has the cells that stand there now.
    fn make_row(&mut self, at: u32) -> Result<(), AllocError>
        ensures same { cells_of self.new ≡ cells_of self.old }
        ensures entry { OnOk result (IsSome (entry_at self.new.cells (at / 4))) }
        ensures stays { (a : ℕ) (other : Cell) → HasPlace self.old a other → HasPlace self.new a other }
    {
        let row = self.present(at);
        match self.set_row(at, row) {
            Ok(()) => Ok(()),
            Err(error) => Err(error),
        }
    }

    /// Puts cells for which there are places.
    fn put_all(&mut self, at: u32, cells: &[Cell])
        requires within { at + length cells.now ≤ 4294967296 }
        requires places { (k : ℕ) → k < length cells.now → HasPlace self.old (at + k) (slice_index_or cells.now k Mist) }
        ensures { cells_of self.new ≡ put_cells (cells_of self.old) at cells.now }
    {
        for (k, cell) in cells.iter().enumerate() {
            self.set(at + k as u32, *cell).unwrap();
        }
    }
}
