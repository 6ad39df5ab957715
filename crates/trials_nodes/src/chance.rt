// Tries random changes of items: the blocks, what the walks met and what they judged are folded into a number, printed now and
// then.
use crate::case::{Base, Case, FIRST, Word};
use crate::image::BLOCK;
use crate::tally::tally;
use std::fmt;
use trials::digest::{Digest, digest_of};
use trials::random::Random;

// Numbers at which something changes.
static VALUES: [u32; 16] = [
    0, 1, 2, 3, 4, 5, 8, 11, 12, 40, 42, 73, 512, 65536, 0x80000000, 0xffffffff,
];

// What was seen so far.
#[derive(Clone, Copy)]
struct Seen {
    all: u32,
    items: usize,
    offences: usize,
}

impl fmt::Display for Seen {
    fn fmt<W: fmt::Write>(&self, f: &mut fmt::Formatter<W>) -> fmt::Result {
        let Seen {
            all,
            items,
            offences,
        } = *self;
        write!(f, "{all:08x}, items {items}, offences {offences}")
    }
}

// A word's offset in an item, and a value for it.
fn change(random: &mut Random) -> Word {
    let at = random.below(18) as usize;
    let value = match random.below(3) {
        0 => random.number(),
        _ => VALUES[random.below(16) as usize],
    };
    (4 * at, value)
}

fn base(random: &mut Random) -> Base {
    match random.below(4) {
        0 => Base::File,
        1 => Base::Removal,
        2 => Base::Plain,
        _ => Base::Hole,
    }
}

// One block, with two changed words and right sums, or with one changed word and the sums as they were.
fn turn(rt: &HostRuntime, random: &mut Random, seen: Seen) -> anyhow::Result<Seen> {
    let base = base(random);
    let one = change(random);
    let two = change(random);
    let block = match random.below(4) {
        0 => Case("random", base, FIRST, &[], &[one]).image(rt.alloc())?,
        _ => Case("random", base, FIRST, &[one, two], &[]).image(rt.alloc())?,
    };
    let met = tally(&block);
    let number = met.offence_number();
    Ok(Seen {
        all: seen
            .all
            .with(digest_of(&block))
            .with(u32::from(number))
            .with((met.last % BLOCK) as u32),
        items: seen.items.saturating_add(met.items),
        offences: seen.offences.saturating_add(usize::from(number > 0)),
    })
}

pub(crate) fn try_chance(rt: &HostRuntime) -> anyhow::Result<()> {
    println!(rt; "random changes")?;
    let mut random = Random { state: 7 };
    let mut seen = Seen {
        all: 1,
        items: 0,
        offences: 0,
    };
    for i in 0..1000u32 {
        seen = turn(rt, &mut random, seen)?;
        if i % 50 == 49 {
            println!(rt; "{i}: {seen}")?;
        }
    }
    Ok(())
}
