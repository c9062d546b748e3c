ghost use Rattle.std.specs.Prelude.{◌≡◌, ℕ, ◌+◌, ◌<◌, vec_len, slice_index, IsOk, OnOk, OnErr, ◌≤◌, ◌%◌, ◌/◌, length};
ghost use Rattle.rv32im.specs.Words.{half_of, word_of};
ghost use Rattle.paged_store.specs.{Pages.{IsZeroPage, AreInside, AreDisjoint, IsWhole, IsInPages}, Pages.{with_piece}};

use crate::byte_store::ByteStore;
use std::alloc::{AllocError, Global};

/// How many bytes a page has.
const PAGE: usize = 4096;

/// How many pages have an address below 2 ^ 32.
const PAGES: usize = 0x10_0000;

/// A store in pages of 4,096 bytes, for large memories: a directory leads to the page of an address.
///
/// The bytes of page `p` begin at `p * 4096`. Page 0 is never written: it is shared by the addresses
/// that have no page, so that a byte is read alike whether its address has one or not.
#[derive(Drop)]
pub struct PageStore {
    // the page of each 4,096 addresses; empty before the first room
    directory: Vec<u32>,
    bytes: Vec<u8>,
    ghost zero_page: { IsZeroPage bytes.items },
    ghost inside: { AreInside directory.items bytes.items },
    ghost disjoint: { AreDisjoint directory.items },
    ghost whole: { IsWhole directory.items },
    ghost in_pages: { IsInPages bytes.items },
}

/// Appends zeros, so that there are `n` numbers.
fn lengthen(numbers: &mut Vec<u32>, n: usize) -> Result<(), AllocError>
    requires { vec_len numbers.old ≤ n }
    ensures items { (k : ℕ) → slice_index numbers.new.items k ≡ slice_index numbers.old.items k }
    ensures len { OnOk result (vec_len numbers.new ≡ n) }
    ensures err { OnErr result (numbers.new.items ≡ numbers.old.items) }
{
    numbers.resize(n, 0)
}

/// Appends zeros, so that there are `n` bytes.
fn lengthen_bytes(bytes: &mut Vec<u8>, n: usize) -> Result<(), AllocError>
    requires { vec_len bytes.old ≤ n }
    ensures items { (k : ℕ) → slice_index bytes.new.items k ≡ slice_index bytes.old.items k }
    ensures len { OnOk result (vec_len bytes.new ≡ n) }
    ensures err { OnErr result (bytes.new.items ≡ bytes.old.items) }
{
    bytes.resize(n, 0)
}

// What each access goes through is inlined, here and below, since it has several callers.

/// The little-endian halfword at a place.
#[inline(always)]
fn half_in(bytes: &[u8], place: usize) -> u16
    requires { place + 2 ≤ length bytes.now }
    ensures { result ≡ half_of (slice_index bytes.now place) (slice_index bytes.now (place + 1)) }
{
    let half = &bytes[place..place + 2];
    u16::from_le_bytes([half[0], half[1]])
}

/// The little-endian word at a place. Its bytes are read from one slice, so that they become one
/// load.
#[inline(always)]
fn word_in(bytes: &[u8], place: usize) -> u32
    requires { place + 4 ≤ length bytes.now }
    ensures { result
        ≡ word_of (slice_index bytes.now place) (slice_index bytes.now (place + 1))
        (slice_index bytes.now (place + 2)) (slice_index bytes.now (place + 3)) }
{
    let word = &bytes[place..place + 4];
    u32::from_le_bytes([word[0], word[1], word[2], word[3]])
}

/// Puts a piece at a place.
#[inline(always)]
fn put_piece(bytes: &mut Vec<u8>, place: usize, piece: &[u8])
    requires { place + length piece.now ≤ vec_len bytes.old }
    ensures items { bytes.new.items ≡ with_piece bytes.old.items place piece.now }
    ensures len { vec_len bytes.new ≡ vec_len bytes.old }
{
    bytes[place..place + piece.len()].copy_from_slice(piece);
}

impl PageStore {
    ghost use Rattle.std.specs.Prelude.{◌≢◌, IsTrue};
    ghost use Rattle.rv32im.specs.Memory.{zeros, word_at, put, put_bytes, put_half, put_word};
    ghost use Rattle.paged_store.specs.{Room.{HasRoom, RoomGrows}, Pages.{page_of, byte_place, paged_bytes, has_page, PagesStay}};

    /// The store of zeros. It takes no memory.
    pub fn new(alloc: Global) -> PageStore
        ensures { ⟦<PageStore as ByteStore>⟧.byte_at result ≡ zeros }
    {
        PageStore {
            directory: Vec::new(alloc),
            bytes: Vec::new(alloc),
        }
    }

    /// Whether an address has a page of its own.
    #[inline(always)]
    fn has_page(&self, at: u32) -> bool
        ensures { result ≡ has_page self.now.directory.items at }
    {
        !self.directory.is_empty() && self.directory[at as usize / PAGE] != 0
    }

    /// Whether all of the `n` addresses from `at` are in one page, which is there.
    #[inline(always)]
    fn has_span(&self, at: u32, n: u32) -> bool
        ensures { IsTrue result → HasRoom (has_page self.now.directory.items) at n }
    {
        n <= 4096 - at % 4096 && self.has_page(at)
    }

    /// Where the byte of an address stands, once there is a directory.
    #[inline(always)]
    fn place(&self, at: u32) -> usize
        requires { 0 < vec_len self.now.directory }
        ensures place { result ≡ byte_place self.now.directory.items at }
        ensures inside { result + 4096 ≤ vec_len self.now.bytes + at % 4096 }
    {
        self.directory[at as usize / PAGE] as usize * PAGE + at as usize % PAGE
    }

    /// Puts a piece at an address that has a page, inside that page.
    #[inline(always)]
    fn set_piece(&mut self, at: u32, piece: &[u8])
        requires page { page_of self.old.directory.items at ≢ 0 }
        requires inside { at % 4096 + length piece.now ≤ 4096 }
        ensures bytes { paged_bytes self.new.directory.items self.new.bytes.items
            ≡ put_bytes (paged_bytes self.old.directory.items self.old.bytes.items) at piece.now }
        ensures directory { self.new.directory.items ≡ self.old.directory.items }
    {
        let place = self.place(at);
        put_piece(&mut self.bytes, place, piece);
    }

    /// The word at any address, by single bytes.
    #[cold]
    #[inline(never)]
    fn word_by_bytes(&self, at: u32) -> u32
        ensures { result ≡ word_at (paged_bytes self.now.directory.items self.now.bytes.items) at }
    {
        u32::from_le_bytes([
            self.get(at),
            self.get(at.wrapping_add(1)),
            self.get(at.wrapping_add(2)),
            self.get(at.wrapping_add(3)),
        ])
    }

    /// Puts a byte at any address, and makes its page where there is none.
    #[cold]
    #[inline(never)]
    fn set_anew(&mut self, at: u32, byte: u8) -> Result<(), AllocError>
        ensures ok { OnOk result (paged_bytes self.new.directory.items self.new.bytes.items
            ≡ put (paged_bytes self.old.directory.items self.old.bytes.items) at byte) }
        ensures err { OnErr result (paged_bytes self.new.directory.items self.new.bytes.items
            ≡ paged_bytes self.old.directory.items self.old.bytes.items) }
        ensures fits { IsTrue (has_page self.old.directory.items at) → IsOk result }
        ensures grows { RoomGrows (has_page self.old.directory.items)
            (has_page self.new.directory.items) }
    {
        self.room(at, 1)?;
        self.set_piece(at, &[byte]);
        Ok(())
    }

    /// Puts a halfword at any address, and makes its pages where there are none.
    #[cold]
    #[inline(never)]
    fn set_half_anew(&mut self, at: u32, half: u16) -> Result<(), AllocError>
        ensures ok { OnOk result (paged_bytes self.new.directory.items self.new.bytes.items
            ≡ put_half (paged_bytes self.old.directory.items self.old.bytes.items) at half) }
        ensures err { OnErr result (paged_bytes self.new.directory.items self.new.bytes.items
            ≡ paged_bytes self.old.directory.items self.old.bytes.items) }
        ensures fits { HasRoom (has_page self.old.directory.items) at 2 → IsOk result }
        ensures grows { RoomGrows (has_page self.old.directory.items)
            (has_page self.new.directory.items) }
    {
        self.room(at, 2)?;
        let [low, high] = half.to_le_bytes();
        self.set(at, low).unwrap();
        self.set(at.wrapping_add(1), high).unwrap();
        Ok(())
    }

    /// Puts a word at any address, and makes its pages where there are none.
    #[cold]
    #[inline(never)]
    fn set_word_anew(&mut self, at: u32, word: u32) -> Result<(), AllocError>
        ensures ok { OnOk result (paged_bytes self.new.directory.items self.new.bytes.items
            ≡ put_word (paged_bytes self.old.directory.items self.old.bytes.items) at word) }
        ensures err { OnErr result (paged_bytes self.new.directory.items self.new.bytes.items
            ≡ paged_bytes self.old.directory.items self.old.bytes.items) }
        ensures fits { HasRoom (has_page self.old.directory.items) at 4 → IsOk result }
        ensures grows { RoomGrows (has_page self.old.directory.items)
            (has_page self.new.directory.items) }
    {
        self.room(at, 4)?;
        let [b0, b1, b2, b3] = word.to_le_bytes();
        self.set(at, b0).unwrap();
        self.set(at.wrapping_add(1), b1).unwrap();
        self.set(at.wrapping_add(2), b2).unwrap();
        self.set(at.wrapping_add(3), b3).unwrap();
        Ok(())
    }

    /// Makes the directory and page 0, where there are none.
    fn make_directory(&mut self) -> Result<(), AllocError>
        ensures bytes { paged_bytes self.new.directory.items self.new.bytes.items
            ≡ paged_bytes self.old.directory.items self.old.bytes.items }
        ensures pages { (k : ℕ) → slice_index self.new.directory.items k
            ≡ slice_index self.old.directory.items k }
        ensures ok { OnOk result (0 < vec_len self.new.directory) }
        ensures fits { 0 < vec_len self.old.directory → IsOk result }
    {
        if self.directory.is_empty() {
            if self.bytes.is_empty() {
                lengthen_bytes(&mut self.bytes, PAGE)?;
            }
            lengthen(&mut self.directory, PAGES)?;
        }
        Ok(())
    }

    /// Makes a page for the addresses from `k * 4096` on, where there is none.
    fn make_page(&mut self, k: usize) -> Result<(), AllocError>
        requires { k < 1048576 }
        ensures bytes { paged_bytes self.new.directory.items self.new.bytes.items
            ≡ paged_bytes self.old.directory.items self.old.bytes.items }
        ensures ok { OnOk result (slice_index self.new.directory.items k ≢ 0) }
        ensures fits { slice_index self.old.directory.items k ≢ 0 → IsOk result }
        ensures grows { PagesStay self.old.directory.items self.new.directory.items }
    {
        self.make_directory()?;
        if self.directory[k] == 0 {
            let end = self.bytes.len();
            // 2 ^ 20 pages and page 0 have numbers that fit
            let Ok(page) = u32::try_from(end / PAGE) else {
                return Err(AllocError);
            };
            lengthen_bytes(&mut self.bytes, end + PAGE)?;
            self.directory[k] = page;
        }
        Ok(())
    }

    /// Makes the pages of the `n` addresses from `at`, modulo 2 ^ 32.
    #[cold]
    #[inline(never)]
    fn make_pages(&mut self, at: u32, n: u32) -> Result<(), AllocError>
        ensures bytes { paged_bytes self.new.directory.items self.new.bytes.items
            ≡ paged_bytes self.old.directory.items self.old.bytes.items }
        ensures ok { OnOk result (HasRoom (has_page self.new.directory.items) at n) }
        ensures fits { HasRoom (has_page self.old.directory.items) at n → IsOk result }
        ensures grows { PagesStay self.old.directory.items self.new.directory.items }
    {
        if n == 0 {
            return Ok(());
        }
        let first = at as usize / PAGE;
        let count = (at as usize % PAGE + n as usize).div_ceil(PAGE);
        for k in 0..count {
            self.make_page((first + k) % PAGES)?;
        }
        Ok(())
    }
}

impl ByteStore for PageStore {
    ghost use Rattle.paged_store.specs.Pages.{paged_bytes, has_page};

    ghost byte_at = { λ s. paged_bytes s.directory.items s.bytes.items };

    ghost has_room = { λ s. has_page s.directory.items };

    // What a machine reads and writes in each step is inlined; what is rare is left to cold functions.
    #[inline(always)]
    fn get(&self, at: u32) -> u8 {
        if self.directory.is_empty() {
            return 0;
        }
        self.bytes[self.place(at)]
    }

    #[inline(always)]
    fn room(&mut self, at: u32, n: u32) -> Result<(), AllocError> {
        if self.has_span(at, n) {
            return Ok(());
        }
        self.make_pages(at, n)
    }

    #[inline(always)]
    fn set(&mut self, at: u32, byte: u8) -> Result<(), AllocError> {
        if self.has_page(at) {
            self.set_piece(at, &[byte]);
            return Ok(());
        }
        self.set_anew(at, byte)
    }

    #[inline(always)]
    fn get_half(&self, at: u32) -> u16 {
        if !self.directory.is_empty() && at % 2 == 0 {
            return half_in(&self.bytes, self.place(at));
        }
        u16::from_le_bytes([self.get(at), self.get(at.wrapping_add(1))])
    }

    #[inline(always)]
    fn get_word(&self, at: u32) -> u32 {
        if !self.directory.is_empty() && at % 4 == 0 {
            return word_in(&self.bytes, self.place(at));
        }
        self.word_by_bytes(at)
    }

    #[inline(always)]
    fn set_half(&mut self, at: u32, half: u16) -> Result<(), AllocError> {
        if at % 2 == 0 && self.has_page(at) {
            let [low, high] = half.to_le_bytes();
            self.set_piece(at, &[low, high]);
            return Ok(());
        }
        self.set_half_anew(at, half)
    }

    #[inline(always)]
    fn set_word(&mut self, at: u32, word: u32) -> Result<(), AllocError> {
        if at % 4 == 0 && self.has_page(at) {
            let [b0, b1, b2, b3] = word.to_le_bytes();
            self.set_piece(at, &[b0, b1, b2, b3]);
            return Ok(());
        }
        self.set_word_anew(at, word)
    }

    fn set_bytes(&mut self, at: u32, bytes: &[u8]) -> Result<(), AllocError> {
        self.room(at, bytes.len() as u32)?;
        let mut done = 0;
        while done < bytes.len() {
            let start = at + done as u32;
            let count = (PAGE - start as usize % PAGE).min(bytes.len() - done);
            self.set_piece(start, &bytes[done..done + count]);
            done += count;
        }
        Ok(())
    }
}
