ghost use Rattle.std.specs.Prelude.{◌≡◌, ◌+◌, ◌≤◌, ◌++◌, OnOk, OnErr};
ghost use Rattle.rv32im.specs.Memory.{bytes_at};

use crate::byte_store::ByteStore;
use std::alloc::AllocError;

/// Appends the `n` bytes from `at` on to `out`. The addresses do not pass 2 ^ 32.
pub fn append_span<S: ByteStore>(
    s: &S,
    at: u32,
    n: u32,
    out: &mut Vec<u8>,
) -> Result<(), AllocError>
    requires { at + n ≤ 4294967296 }
    ensures ok { OnOk result (out.new.items ≡ out.old.items ++ bytes_at (S.byte_at s.now) at n) }
    ensures err { OnErr result (out.new.items ≡ out.old.items) }
{
    out.reserve(n as usize)?;
    for i in 0..n {
        out.push(s.get(at + i)).unwrap();
    }
    Ok(())
}
