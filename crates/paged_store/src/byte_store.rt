ghost use Rattle.std.specs.Prelude.{◌≡◌, ℕ, ◌+◌, ◌≤◌, ◌<◌, length, Bool, IsTrue, IsOk, OnOk, OnErr};
ghost use Rattle.rv32im.specs.Memory.{Memory, put, half_at, word_at, put_half, put_word, put_bytes};
ghost use Rattle.paged_store.specs.Room.{HasRoom, RoomGrows};

use std::alloc::AllocError;

/// A memory of bytes at 32-bit addresses. An address at which nothing was ever put holds 0.
///
/// An address may have room: a byte can be put there without taking memory. No address ever loses
/// its room. Halfwords and words are little-endian, and their addresses are modulo 2 ^ 32.
pub trait ByteStore {
    /// The byte at each address.
    ghost byte_at: { Self → Memory };

    /// The addresses that have room.
    ghost has_room: { Self → ℕ → Bool };

    /// The byte at an address.
    fn get(&self, at: u32) -> u8
        ensures { result ≡ byte_at self.now at };

    /// Makes room at the `n` addresses from `at`, modulo 2 ^ 32. No byte changes. Where they have
    /// room already it is `Ok`.
    fn room(&mut self, at: u32, n: u32) -> Result<(), AllocError>
        ensures bytes { byte_at self.new ≡ byte_at self.old }
        ensures ok { OnOk result (HasRoom (has_room self.new) at n) }
        ensures fits { HasRoom (has_room self.old) at n → IsOk result }
        ensures grows { RoomGrows (has_room self.old) (has_room self.new) };

    /// Puts a byte at an address, and changes no other. At an address with room it is `Ok`.
    fn set(&mut self, at: u32, byte: u8) -> Result<(), AllocError>
        ensures ok { OnOk result (byte_at self.new ≡ put (byte_at self.old) at byte) }
        ensures err { OnErr result (byte_at self.new ≡ byte_at self.old) }
        ensures fits { IsTrue (has_room self.old at) → IsOk result }
        ensures grows { RoomGrows (has_room self.old) (has_room self.new) };

    /// The halfword at an address.
    fn get_half(&self, at: u32) -> u16
        ensures { result ≡ half_at (byte_at self.now) at }
    {
        u16::from_le_bytes([self.get(at), self.get(at.wrapping_add(1))])
    }

    /// The word at an address.
    fn get_word(&self, at: u32) -> u32
        ensures { result ≡ word_at (byte_at self.now) at }
    {
        u32::from_le_bytes([
            self.get(at),
            self.get(at.wrapping_add(1)),
            self.get(at.wrapping_add(2)),
            self.get(at.wrapping_add(3)),
        ])
    }

    /// Puts a halfword at two addresses. Where they have room it is `Ok`.
    fn set_half(&mut self, at: u32, half: u16) -> Result<(), AllocError>
        ensures ok { OnOk result (byte_at self.new ≡ put_half (byte_at self.old) at half) }
        ensures err { OnErr result (byte_at self.new ≡ byte_at self.old) }
        ensures fits { HasRoom (has_room self.old) at 2 → IsOk result }
        ensures grows { RoomGrows (has_room self.old) (has_room self.new) }
    {
        self.room(at, 2)?;
        let [low, high] = half.to_le_bytes();
        self.set(at, low).unwrap();
        self.set(at.wrapping_add(1), high).unwrap();
        Ok(())
    }

    /// Puts a word at four addresses. Where they have room it is `Ok`.
    fn set_word(&mut self, at: u32, word: u32) -> Result<(), AllocError>
        ensures ok { OnOk result (byte_at self.new ≡ put_word (byte_at self.old) at word) }
        ensures err { OnErr result (byte_at self.new ≡ byte_at self.old) }
        ensures fits { HasRoom (has_room self.old) at 4 → IsOk result }
        ensures grows { RoomGrows (has_room self.old) (has_room self.new) }
    {
        self.room(at, 4)?;
        let [b0, b1, b2, b3] = word.to_le_bytes();
        self.set(at, b0).unwrap();
        self.set(at.wrapping_add(1), b1).unwrap();
        self.set(at.wrapping_add(2), b2).unwrap();
        self.set(at.wrapping_add(3), b3).unwrap();
        Ok(())
    }

    /// Puts `bytes` at the addresses from `at` on, which do not pass 2 ^ 32. Where they have room it
    /// is `Ok`.
    fn set_bytes(&mut self, at: u32, bytes: &[u8]) -> Result<(), AllocError>
        requires within { at + length bytes.now ≤ 4294967296 }
        requires count { length bytes.now < 4294967296 }
        ensures ok { OnOk result (byte_at self.new ≡ put_bytes (byte_at self.old) at bytes.now) }
        ensures err { OnErr result (byte_at self.new ≡ byte_at self.old) }
        ensures fits { HasRoom (has_room self.old) at (length bytes.now) → IsOk result }
        ensures grows { RoomGrows (has_room self.old) (has_room self.new) }
    {
        self.room(at, bytes.len() as u32)?;
        for (i, byte) in bytes.iter().enumerate() {
            self.set(at.wrapping_add(i as u32), *byte).unwrap();
        }
        Ok(())
    }
}
