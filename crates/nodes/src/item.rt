// What can stand at a place of a block.
use crate::record::{Content, Entry};

// One item. Entries and contents borrow from the block: `bytes` are all the bytes of the node, the name and the payload
// are parts of them.
#[derive(Clone, Copy)]
pub enum Item<'a> {
    // four zero bytes, that fill a gap too short for padding
    Zero,
    Marker {
        length: usize,
    },
    Padding {
        length: usize,
    },
    // a kind that we do not know
    Unknown {
        kind: u16,
        length: usize,
    },
    Entry {
        bytes: &'a [u8],
        entry: Entry<'a>,
    },
    Content {
        bytes: &'a [u8],
        content: Content<'a>,
    },
}
