// Tries a block of which one page, or all from one on, cannot be read: how many items are then met, and which numbers the
// reader hands out of each item of the block.
use encode::filler::{filling, marker};
use encode::node::encode;
use kinds::Kind;
use nodes::image::Image;
use nodes::item::Item;
use nodes::reader::Reader;
use trials::sample::{content, entry};

const BLOCK: usize = 4096;

// The pages up to some past the last item.
const PAGES: usize = 41;

// Of a length, what a number has room for.
fn short(length: usize) -> u32 {
    (length % 65536) as u32
}

// The value of a kind on the flash.
fn value(kind: Kind) -> u32 {
    u32::from(u16::from(kind))
}

// A row of the numbers; those that are not there are 0.
fn row(numbers: &[u32]) -> [u32; 11] {
    let mut all = [0; 11];
    for (to, number) in all.iter_mut().zip(numbers) {
        *to = *number;
    }
    all
}

// The kind of an item, its length, its fields, and a sum of its name or data.
fn numbers(item: &Item<'_>) -> [u32; 11] {
    match item {
        Item::Zero => row(&[]),
        Item::Marker { length } => row(&[value(Kind::Marker), short(*length)]),
        Item::Padding { length } => row(&[value(Kind::Padding), short(*length)]),
        Item::Unknown { kind, length } => row(&[u32::from(*kind), short(*length)]),
        Item::Entry { bytes, entry: e } => row(&[
            value(Kind::Entry),
            short(bytes.len()),
            e.pino,
            e.version,
            e.ino,
            u32::from(e.dtype),
            short(e.name.len()),
            crc32::sum_of(e.name),
        ]),
        Item::Content { bytes, content: c } => row(&[
            value(Kind::Content),
            short(bytes.len()),
            c.ino,
            c.version,
            c.mode,
            c.isize,
            c.offset,
            c.dsize,
            u32::from(c.compr),
            short(c.payload.len()),
            crc32::sum_of(c.payload),
        ]),
    }
}

// Prints the numbers of each item.
fn show_items(rt: &HostRuntime, image: Image<'_>) -> anyhow::Result<()> {
    for found in Reader::new(0, image) {
        let at = found.place.offset;
        let all = numbers(&found.item);
        println!(rt; "at {at}: {all:?}")?;
    }
    Ok(())
}

// How many items a walk meets.
fn count(image: Image<'_>) -> usize {
    Reader::new(0, image).count()
}

// For each page: how many items are met if it alone cannot be read.
fn without_one(rt: &HostRuntime, bytes: &[u8]) -> anyhow::Result<()> {
    print!(rt; "items without page 0, 1, ..:")?;
    for page in 0..PAGES {
        let mut readable = [true; BLOCK / 4];
        readable[page] = false;
        let items = count(Image {
            bytes,
            readable: &readable,
        });
        print!(rt; " {items}")?;
    }
    println!(rt; "")?;
    Ok(())
}

// For each number of pages: how many items are met if only so many have a flag.
fn with_few(rt: &HostRuntime, bytes: &[u8]) -> anyhow::Result<()> {
    print!(rt; "items with flags for 0, 1, .. pages:")?;
    for pages in 0..PAGES {
        let items = count(Image {
            bytes,
            readable: &[true; PAGES][..pages],
        });
        print!(rt; " {items}")?;
    }
    println!(rt; "")?;
    Ok(())
}

// Lays the marker, an entry, padding, a content and a zero word into a block.
fn lay_items(block: &mut [u8; BLOCK]) {
    let _ = marker(block);
    let _ = encode(&entry(2, 8, b"ab"), &mut block[12..]);
    let _ = filling(&mut block[56..], 56, 72);
    let _ = encode(&content(5, 0, b"hello"), &mut block[72..]);
    block[148..152].fill(0);
}

pub(crate) fn try_pages(rt: &HostRuntime) -> anyhow::Result<()> {
    println!(rt; "pages")?;
    let mut block = [0xff; BLOCK];
    lay_items(&mut block);
    show_items(
        rt,
        Image {
            bytes: &block,
            readable: &[true; BLOCK / 4],
        },
    )?;
    without_one(rt, &block)?;
    with_few(rt, &block)
}
