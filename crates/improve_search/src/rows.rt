//! Rows of numbers that may be read and written at any place.

/// The number at a place, 0 behind the end.
#[inline(always)]
pub(crate) fn at(row: &[u32], place: u32) -> u32 {
    let place = place as usize;
    if place < row.len() { row[place] } else { 0 }
}

/// Writes nothing behind the end.
#[inline(always)]
pub(crate) fn put(row: &mut [u32], place: u32, value: u32) {
    let place = place as usize;
    if place < row.len() {
        row[place] = value;
    }
}

/// The word at a place, 0 behind the end.
#[inline(always)]
pub(crate) fn word_at(row: &[u64], place: u32) -> u64 {
    let place = place as usize;
    if place < row.len() { row[place] } else { 0 }
}

/// Writes nothing if the lengths differ.
#[inline(always)]
pub(crate) fn copy(row: &mut [u32], from: &[u32]) {
    if row.len() == from.len() {
        row.copy_from_slice(from);
    }
}

/// Writes 0 up to `last` and there, but nothing if that is behind the end.
pub(crate) fn clear(row: &mut [u32], last: u32) {
    let last = last as usize;
    if last < row.len() {
        row[..=last].fill(0);
    }
}

/// Returns no rows if there are no such places.
#[inline(always)]
pub(crate) fn part(row: &[u32], from: u32, to: u32) -> &[u32] {
    let from = from as usize;
    let to = to as usize;
    if from <= to && to <= row.len() {
        &row[from..to]
    } else {
        &row[..0]
    }
}
