// The block that a script is about.
use crate::answer::Answer;
use crate::command::Command;
use crate::walk::walk;
use encode::filler::{filling, marker};
use encode::node::encode;
use nodes::image::Image;
use trials::digest::digest_of;

// Its bytes, and a flag for each page of 4 bytes, set if it can be read.
#[derive(Drop)]
pub(crate) struct Block {
    bytes: [u8; 4096],
    readable: [bool; 1024],
}

// The value of a hexadecimal digit, and 0 for any other byte; `to_digit` would take capitals too.
fn value(digit: u8) -> u8 {
    match digit {
        b'0'..=b'9' => digit - b'0',
        b'a'..=b'f' => digit - b'a' + 10,
        _ => 0,
    }
}

// What an encoder answered, and what it left.
fn laid(size: Option<usize>, bytes: &[u8]) -> Answer {
    Answer::Laid {
        size,
        digest: digest_of(bytes),
    }
}

impl Block {
    // An erased block, of which every page can be read.
    pub(crate) fn new() -> Block {
        Block {
            bytes: [0xff; 4096],
            readable: [true; 1024],
        }
    }

    // Erases it where it stands: a new block would be made beside it, and room for that at every line.
    fn erase(&mut self) {
        self.bytes.fill(0xff);
        self.readable.fill(true);
    }

    // Lays bytes, given by pairs of digits, at a place.
    fn put(&mut self, at: usize, digits: &str) {
        let Some(room) = self.bytes.get_mut(at..) else {
            return;
        };
        let (pairs, _) = digits.as_bytes().as_chunks::<2>();
        for (byte, [high, low]) in room.iter_mut().zip(pairs) {
            *byte = value(*high) << 4 | value(*low);
        }
    }

    // Lays n zeros at a place.
    fn zero(&mut self, at: usize, n: usize) {
        if let Some(room) = self.bytes.get_mut(at..at.saturating_add(n)) {
            room.fill(0);
        }
    }

    fn lose(&mut self, page: usize) {
        if let Some(flag) = self.readable.get_mut(page) {
            *flag = false;
        }
    }

    // Fills a batch, in so much room at the front.
    fn fill(&mut self, end: usize, batch: usize, room: usize) -> Answer {
        let room = room.min(self.bytes.len());
        let out = &mut self.bytes[..room];
        laid(filling(out, end, batch), out)
    }

    // Walks so many bytes, with so many of the flags.
    fn walk(&self, length: usize, flags: usize) -> Answer {
        let length = length.min(self.bytes.len());
        let flags = flags.min(self.readable.len());
        walk(Image {
            bytes: &self.bytes[..length],
            readable: &self.readable[..flags],
        })
    }

    fn sum(&self, n: usize) -> Answer {
        let n = n.min(self.bytes.len());
        Answer::Sum(crc32::sum_of(&self.bytes[..n]))
    }

    // What a line answers, if it is more than a change of the block.
    pub(crate) fn ask(&mut self, command: Command<'_>) -> Option<Answer> {
        match command {
            Command::Block => self.erase(),
            Command::Put { at, digits } => self.put(at, digits),
            Command::Zero { at, n } => self.zero(at, n),
            Command::Lose { page } => self.lose(page),
            Command::Marker => return Some(laid(marker(&mut self.bytes), &self.bytes)),
            Command::Entry(entry) => {
                let size = encode(&entry, &mut self.bytes[12..]);
                return Some(laid(size, &self.bytes));
            }
            Command::Content(content) => {
                let size = encode(&content, &mut self.bytes[12..]);
                return Some(laid(size, &self.bytes));
            }
            Command::Filling { end, batch, room } => return Some(self.fill(end, batch, room)),
            Command::Walk { length, flags } => return Some(self.walk(length, flags)),
            Command::Sum { n } => return Some(self.sum(n)),
        }
        None
    }
}
