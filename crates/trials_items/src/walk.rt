// Walks the block, and judges what it meets.
use crate::answer::Answer;
use kinds::Kind;
use nodes::image::Image;
use nodes::item::Item;
use nodes::reader::Reader;
use nodes::record::{Content, Entry};
use trials::digest::Digest;
use trials::met::Met;

fn with_entry(all: usize, entry: &Entry<'_>) -> usize {
    let sum = crc32::sum_of(entry.name);
    [
        entry.pino,
        entry.version,
        entry.ino,
        u32::from(entry.dtype),
        sum,
    ]
    .into_iter()
    .fold(all.with(entry.name.len()), |all, n| all.with(n as usize))
}

fn with_content(all: usize, content: &Content<'_>) -> usize {
    let Content {
        ino,
        version,
        mode,
        isize,
        offset,
        dsize,
        compr,
        payload,
    } = *content;
    let sum = crc32::sum_of(payload);
    [
        ino,
        version,
        mode,
        isize,
        offset,
        dsize,
        u32::from(compr),
        sum,
    ]
    .into_iter()
    .fold(all.with(payload.len()), |all, n| all.with(n as usize))
}

// A kind and the length of its item taken into a number.
fn with_kind(all: usize, kind: impl Into<u16>, length: usize) -> usize {
    all.with(usize::from(kind.into())).with(length)
}

// Takes the kind, the length and the fields of an item into a number.
fn with_item(all: usize, item: &Item<'_>) -> usize {
    match item {
        Item::Zero => all.with(4),
        Item::Marker { length } => with_kind(all, Kind::Marker, *length),
        Item::Padding { length } => with_kind(all, Kind::Padding, *length),
        Item::Unknown { kind, length } => with_kind(all, *kind, *length),
        Item::Entry { bytes, entry } => {
            with_entry(with_kind(all, Kind::Entry, bytes.len()), entry)
        }
        Item::Content { bytes, content } => {
            with_content(with_kind(all, Kind::Content, bytes.len()), content)
        }
    }
}

// What is met on a block, and a number for all items.
pub(crate) fn walk(image: Image<'_>) -> Answer {
    let start = (Met::default(), 1);
    let (met, digest) = Reader::new(0, image).fold(start, |(met, digest), found| {
        (met.with(&found), with_item(digest, &found.item))
    });
    Answer::Walked { met, digest }
}
