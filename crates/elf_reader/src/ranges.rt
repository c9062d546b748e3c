ghost use Rattle.std.specs.Prelude.{◌≡◌};
ghost use Rattle.list_checks.specs.Tests.{ranges_overlap};

/// Two ranges, each a first place and a size, share a place.
pub(crate) fn intersect(base: u32, size: u32, other_base: u32, other_size: u32) -> bool
    ensures { result ≡ ranges_overlap base size other_base other_size }
{
    let (start, end) = (u64::from(base), u64::from(base) + u64::from(size));
    let (other_start, other_end) = (
        u64::from(other_base),
        u64::from(other_base) + u64::from(other_size),
    );
    size > 0 && other_size > 0 && start < other_end && other_start < end
}
