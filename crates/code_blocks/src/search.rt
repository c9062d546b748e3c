// Ascending lists of addresses.
ghost use Rattle.std.specs.Prelude.{◌≡◌, ℕ};
ghost use Rattle.std.specs.List.Sorted.{IsStrictlyIncreasing};
ghost use Rattle.code_blocks.specs.Early.{has};

/// Whether an ascending list has an address, by binary search.
pub fn has_address(addresses: &[u32], address: u32) -> bool
    requires { IsStrictlyIncreasing addresses.now }
    ensures { result ≡ has addresses.now address }
{
    addresses.binary_search(&address).is_ok()
}

/// Sorts addresses, and keeps each once.
pub(crate) fn arrange(addresses: &mut Vec<u32>)
    ensures ascending { IsStrictlyIncreasing addresses.new.items }
    ensures same { (a : ℕ) → has addresses.new.items a ≡ has addresses.old.items a }
{
    addresses.sort_unstable();
    addresses.dedup();
}
