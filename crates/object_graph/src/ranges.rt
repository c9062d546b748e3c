ghost use Rattle.std.specs.Prelude.{◌≡◌, ◌+◌};
ghost use Rattle.list_checks.specs.Tests.{lies_in, ranges_overlap};

use board_config::Range;
use elf_reader::Segment;

/// Two ranges share an address.
pub(crate) fn overlap(one: &Range, other: &Range) -> bool
    ensures { result ≡ ranges_overlap one.now.base one.now.size other.now.base other.now.size }
{
    one.size > 0
        && other.size > 0
        && u64::from(one.base) < end(other)
        && u64::from(other.base) < end(one)
}

/// The second range lies inside the first, ends included.
pub(crate) fn lies_in(outer: &Range, inner: &Range) -> bool
    ensures { result ≡ lies_in outer.now.base outer.now.size inner.now.base inner.now.size }
{
    outer.base <= inner.base && end(inner) <= end(outer)
}

/// The address behind a range.
pub(crate) fn end(range: &Range) -> u64
    ensures { result ≡ range.now.base + range.now.size }
{
    u64::from(range.base) + u64::from(range.size)
}

/// The memory of a segment.
pub(crate) fn memory_of(segment: &Segment) -> Range
    ensures base { result.base ≡ segment.now.vaddr }
    ensures size { result.size ≡ segment.now.memsz }
{
    Range {
        base: segment.vaddr,
        size: segment.memsz,
    }
}
