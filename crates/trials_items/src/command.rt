// The lines of a script.
use nodes::record::{Content, Entry};
use std::array;
use trials::sample::{content, entry};

// What a line asks for, as data: lines are read at run time.
#[derive(Clone, Copy)]
pub(crate) enum Command<'a> {
    Block,
    // bytes by pairs of hexadecimal digits
    Put {
        at: usize,
        digits: &'a str,
    },
    Zero {
        at: usize,
        n: usize,
    },
    Lose {
        page: usize,
    },
    Marker,
    Entry(Entry<'a>),
    Content(Content<'a>),
    Filling {
        end: usize,
        batch: usize,
        room: usize,
    },
    Walk {
        length: usize,
        flags: usize,
    },
    Sum {
        n: usize,
    },
}

// The number that a word stands for, or 0; the other programs with scripts do not understand such a line.
fn number(word: &str) -> usize {
    word.parse().unwrap_or(0)
}

// The low bits of the number that a word stands for, as many as a field of 32 bits or of 8 has.
fn word32(word: &str) -> u32 {
    (number(word) & 0xffffffff) as u32
}

fn word8(word: &str) -> u8 {
    (number(word) & 0xff) as u8
}

// A line has a verb, two numbers, and what stands behind these. Any word that is no verb is that of a new block.
pub(crate) fn parse(line: &str) -> Command<'_> {
    let mut words = line.splitn(4, ' ');
    let [verb, first, second, rest]: [&str; 4] = array::from_fn(|_| words.next().unwrap_or(""));
    match verb {
        "put" => Command::Put {
            at: number(first),
            digits: rest,
        },
        "zero" => Command::Zero {
            at: number(first),
            n: number(second),
        },
        "lose" => Command::Lose {
            page: number(first),
        },
        "marker" => Command::Marker,
        "entry" => Command::Entry(entry(word32(first), word8(second), rest.as_bytes())),
        "content" => Command::Content(content(word32(first), word8(second), rest.as_bytes())),
        "filling" => Command::Filling {
            end: number(first),
            batch: number(second),
            room: number(rest),
        },
        "walk" => Command::Walk {
            length: number(first),
            flags: number(second),
        },
        "sum" => Command::Sum { n: number(first) },
        _ => Command::Block,
    }
}
