use std::alloc::{AllocError, Global};

/// The number at a place, 0 past the end.
pub(crate) fn number_at(numbers: &[u64], place: usize) -> u64 {
    if place < numbers.len() {
        numbers[place]
    } else {
        0
    }
}

/// A count as a number of 32 bits, at most the greatest one.
pub(crate) fn numbered(count: usize) -> u32 {
    u32::try_from(count).unwrap_or(u32::MAX)
}

/// Whether a place is marked, past the end it is not.
pub(crate) fn is_set(flags: &[bool], place: usize) -> bool {
    place < flags.len() && flags[place]
}

/// Writes a number, and nothing past the end.
pub(crate) fn put(numbers: &mut [u64], place: usize, number: u64) {
    if place < numbers.len() {
        numbers[place] = number;
    }
}

/// Marks a place, and nothing past the end.
pub(crate) fn set(flags: &mut [bool], place: usize) {
    if place < flags.len() {
        flags[place] = true;
    }
}

/// Adds to a number, which stops at its greatest.
pub(crate) fn add(numbers: &mut [u64], place: usize, more: u64) {
    put(
        numbers,
        place,
        number_at(numbers, place).saturating_add(more),
    );
}

/// Takes off a number, which stops at 0.
pub(crate) fn take_off(numbers: &mut [u64], place: usize, less: u64) {
    put(
        numbers,
        place,
        number_at(numbers, place).saturating_sub(less),
    );
}

/// So many zeros.
pub(crate) fn zeros(alloc: Global, count: usize) -> Result<Vec<u64>, AllocError> {
    let mut numbers = Vec::new(alloc);
    numbers.resize(count, 0)?;
    Ok(numbers)
}

/// So many flags, none set.
pub(crate) fn unset(alloc: Global, count: usize) -> Result<Vec<bool>, AllocError> {
    let mut flags = Vec::new(alloc);
    flags.resize(count, false)?;
    Ok(flags)
}

/// The places that are marked, ascending.
pub(crate) fn flagged(alloc: Global, flags: &[bool]) -> Result<Vec<u32>, AllocError> {
    let mut places = Vec::new(alloc);
    for place in 0..numbered(flags.len()) {
        if is_set(flags, place as usize) {
            places.push(place)?;
        }
    }
    Ok(places)
}

/// The first of some numbers, at most so many.
pub(crate) fn first_numbers(
    alloc: Global,
    numbers: &[u64],
    most: usize,
) -> Result<Vec<u64>, AllocError> {
    Vec::from_slice(alloc, &numbers[..most.min(numbers.len())])
}

/// A copy of some numbers.
pub(crate) fn copy_of(alloc: Global, numbers: &[u64]) -> Result<Vec<u64>, AllocError> {
    Vec::from_slice(alloc, numbers)
}
