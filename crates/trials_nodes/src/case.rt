// A case: an image of a block, and what is changed in it. The tables of cases are data, so that their rows look alike.

// What stands at the place of a case before any change.
#[derive(Clone, Copy)]
pub(crate) enum Base {
    // nothing, and no marker either: the block is erased
    Blank,
    // nothing, behind the marker
    Bare,
    // the entry of a file, named "ab", of 42 bytes
    File,
    // the removal of that name
    Removal,
    // a content with five bytes, of 73
    Plain,
    // a content that is a hole of 300 bytes, of 68
    Hole,
}

// A word of an item: its offset there, and a value to write or bits to flip.
pub(crate) type Word = (usize, u32);

// What to call it, the base, its place and the block's length, words to write, and bits to flip. Words are written at offsets
// from the place, and then the item's sums are made right; the bits of words are flipped last, and no sum is made right.
// Zero words lead from the marker to a place above 12. With names for its fields each row of the tables would take seven lines.
#[derive(Clone, Copy)]
pub(crate) struct Case<'a>(
    pub(crate) &'a str,
    pub(crate) Base,
    pub(crate) (usize, usize),
    pub(crate) &'a [Word],
    pub(crate) &'a [Word],
);

// Behind the marker, in a whole block.
pub(crate) const FIRST: (usize, usize) = (12, 4096);
