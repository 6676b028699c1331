//! Reads and writes that are safe at every index: a place that isn't there reads as 0, and a write to it does nothing.
//! So the engine needs no facts about its own tables to be safe.

use lola_bits::Memory;
use std::alloc::Global;

/// The number at a place.
#[inline(always)]
pub(crate) fn at(cells: &Vec<u32>, place: usize) -> u32 {
    if place < cells.len() { cells[place] } else { 0 }
}

/// Sets the number at a place.
#[inline(always)]
pub(crate) fn put(cells: &mut Vec<u32>, place: usize, value: u32) {
    if place < cells.len() {
        cells[place] = value;
    }
}

/// The byte at a place.
#[inline(always)]
pub(crate) fn byte_at(cells: &Vec<u8>, place: usize) -> u8 {
    if place < cells.len() { cells[place] } else { 0 }
}

/// Sets the byte at a place.
#[inline(always)]
pub(crate) fn put_byte(cells: &mut Vec<u8>, place: usize, value: u8) {
    if place < cells.len() {
        cells[place] = value;
    }
}

/// The long number at a place.
#[inline(always)]
pub(crate) fn long_at(cells: &Vec<u64>, place: usize) -> u64 {
    if place < cells.len() { cells[place] } else { 0 }
}

/// Sets the long number at a place.
#[inline(always)]
pub(crate) fn put_long(cells: &mut Vec<u64>, place: usize, value: u64) {
    if place < cells.len() {
        cells[place] = value;
    }
}

/// A number in 32 bits, or 0 where it has more.
#[inline(always)]
pub(crate) fn narrow(value: usize) -> u32 {
    if value < 4294967296 { value as u32 } else { 0 }
}

/// So many cells of one number.
pub(crate) fn filled(alloc: Global, length: usize, value: u32) -> Result<Vec<u32>, Memory> {
    let mut cells: Vec<u32> = Vec::new(alloc);
    cells.resize(length, value)?;
    Ok(cells)
}

/// So many bytes that are 0.
pub(crate) fn filled_bytes(alloc: Global, length: usize) -> Result<Vec<u8>, Memory> {
    let mut cells: Vec<u8> = Vec::new(alloc);
    cells.resize(length, 0)?;
    Ok(cells)
}
