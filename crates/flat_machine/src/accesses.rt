ghost use Rattle.std.specs.Prelude.{◌≡◌, OnOk, OnErr};
ghost use Rattle.rv32im.specs.Acts.{load_width, store_width, loaded, stored};

use paged_store::ByteStore;
use rv32im::{LoadKind, StoreKind};
use std::alloc::AllocError;

// These are inlined, since each load and store goes through them, and its kind is known there.

/// How many bytes a load takes.
#[inline(always)]
pub fn load_bytes(kind: LoadKind) -> u32
    ensures { result ≡ load_width kind }
{
    match kind {
        LoadKind::Lb | LoadKind::Lbu => 1,
        LoadKind::Lh | LoadKind::Lhu => 2,
        LoadKind::Lw => 4,
    }
}

/// How many bytes a store puts.
#[inline(always)]
pub fn store_bytes(kind: StoreKind) -> u32
    ensures { result ≡ store_width kind }
{
    match kind {
        StoreKind::Sb => 1,
        StoreKind::Sh => 2,
        StoreKind::Sw => 4,
    }
}

/// The word that a load takes from an address.
#[inline(always)]
pub fn loaded_value<S: ByteStore>(store: &S, kind: LoadKind, at: u32) -> u32
    ensures { result ≡ loaded kind (S.byte_at store.now) at }
{
    match kind {
        LoadKind::Lb => i32::from(store.get(at).cast_signed()).cast_unsigned(),
        LoadKind::Lh => i32::from(store.get_half(at).cast_signed()).cast_unsigned(),
        LoadKind::Lw => store.get_word(at),
        LoadKind::Lbu => u32::from(store.get(at)),
        LoadKind::Lhu => u32::from(store.get_half(at)),
    }
}

/// Puts the low bytes of a word at an address.
#[inline(always)]
pub fn set_value<S: ByteStore>(
    store: &mut S,
    kind: StoreKind,
    at: u32,
    value: u32,
) -> Result<(), AllocError>
    ensures ok { OnOk result (S.byte_at store.new ≡ stored kind (S.byte_at store.old) at value) }
    ensures err { OnErr result (S.byte_at store.new ≡ S.byte_at store.old) }
{
    match kind {
        StoreKind::Sb => store.set(at, (value & 0xff) as u8),
        StoreKind::Sh => store.set_half(at, (value & 0xffff) as u16),
        StoreKind::Sw => store.set_word(at, value),
    }
}
