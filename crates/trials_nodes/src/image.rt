// Makes the bytes of a block for a case.
use crate::case::{Base, Case, Word};
use crc32::sum_of;
use encode::filler::marker;
use encode::node::encode;
use std::alloc::{AllocError, Global};
use trials::sample::{content, entry};

pub(crate) const BLOCK: usize = 4096;

// Copies as many of the bytes as fit to a place.
fn lay(block: &mut [u8], place: usize, bytes: &[u8]) {
    if let Some(room) = block.get_mut(place..) {
        for (to, byte) in room.iter_mut().zip(bytes) {
            *to = *byte;
        }
    }
}

// The word at a place, or 0 where the bytes end before it does.
fn word(bytes: &[u8], at: usize) -> u32 {
    let rest = bytes.get(at..).unwrap_or(b"");
    rest.first_chunk()
        .map_or(0, |word| u32::from_le_bytes(*word))
}

// The sum of the n bytes at a place, or of those that there are.
fn sum_at(bytes: &[u8], at: usize, n: usize) -> u32 {
    let rest = bytes.get(at..).unwrap_or(b"");
    sum_of(rest.get(..n).unwrap_or(rest))
}

fn put_sum(item: &mut [u8], at: usize, from: usize, n: usize) {
    let sum = sum_at(item, from, n);
    lay(item, at, &sum.to_le_bytes());
}

// Makes all sums of an item right, with the lengths that it states.
fn mend(item: &mut [u8]) {
    put_sum(item, 8, 0, 8);
    match word(item, 0) {
        0xe0011985 => {
            let nsize = word(item, 28) % 256;
            put_sum(item, 32, 0, 32);
            put_sum(item, 36, 40, nsize as usize);
        }
        0xe0021985 => {
            let csize = word(item, 48);
            put_sum(item, 60, 68, csize as usize);
            put_sum(item, 64, 0, 60);
        }
        _ => {}
    }
}

// Makes the item of a base, and answers its size if it has one.
fn make(base: Base, out: &mut [u8]) -> Option<usize> {
    match base {
        Base::Blank | Base::Bare => None,
        Base::File => encode(&entry(2, 8, b"ab"), out),
        Base::Removal => encode(&entry(0, 0, b"ab"), out),
        Base::Plain => encode(&content(5, 0, b"hello"), out),
        Base::Hole => encode(&content(300, 1, b""), out),
    }
}

// Writes words, makes the sums right, and then flips bits.
fn change(item: &mut [u8], edits: &[Word], flips: &[Word]) {
    for (at, value) in edits {
        lay(item, *at, &value.to_le_bytes());
    }
    if !edits.is_empty() {
        mend(item);
    }
    for (at, bits) in flips {
        let flipped = word(item, *at) ^ *bits;
        lay(item, *at, &flipped.to_le_bytes());
    }
}

// A block with the item of a base at a place, where zero words lead from the marker to it.
fn with_base(base: Base, place: usize) -> [u8; BLOCK] {
    let mut block = [0xff; BLOCK];
    if !matches!(base, Base::Blank) {
        let _ = marker(&mut block);
    }
    if let Some(gap) = block.get_mut(12..place) {
        gap.fill(0);
    }
    let mut run = [0xff; 1024];
    if let Some(item) = make(base, &mut run).and_then(|n| run.get(..n)) {
        lay(&mut block, place, item);
    }
    block
}

impl Case<'_> {
    // The bytes of the block.
    pub(crate) fn image(&self, heap: Global) -> Result<Vec<u8>, AllocError> {
        let Case(_, base, (place, length), edits, flips) = *self;
        let mut block = with_base(base, place);
        if let Some(item) = block.get_mut(place..) {
            change(item, edits, flips);
        }
        block[..length.min(BLOCK)].to_vec(heap)
    }
}
