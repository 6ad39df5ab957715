// How items and shapes are shown. `bench` shows the same in other words, so each has its own.
use bench_parts::show::text;
use flash::place::Shape;
use nodes::item::Item;
use nodes::record::{Content, Entry};
use std::fmt;

// An item or a shape with its fields.
#[derive(Clone, Copy)]
pub(crate) struct Shown<T>(pub(crate) T);

// Bytes as text behind a colon, if there are any.
fn write_text<W: fmt::Write>(f: &mut fmt::Formatter<W>, bytes: &[u8]) -> fmt::Result {
    if bytes.is_empty() {
        return Ok(());
    }
    let text = text(bytes);
    write!(f, ": {text:?}")
}

fn write_entry<W: fmt::Write>(f: &mut fmt::Formatter<W>, entry: Entry<'_>) -> fmt::Result {
    let Entry {
        pino,
        version,
        ino,
        dtype,
        name,
    } = entry;
    write!(
        f,
        "entry of directory {pino}, version {version}, number {ino}, type {dtype}"
    )?;
    write_text(f, name)
}

fn write_content<W: fmt::Write>(f: &mut fmt::Formatter<W>, content: Content<'_>) -> fmt::Result {
    let Content {
        ino,
        version,
        isize,
        offset,
        dsize,
        payload,
        ..
    } = content;
    write!(
        f,
        "content of number {ino}, version {version}, length {isize}, bytes {dsize} at {offset}"
    )?;
    write_text(f, payload)
}

impl fmt::Display for Shown<Item<'_>> {
    fn fmt<W: fmt::Write>(&self, f: &mut fmt::Formatter<W>) -> fmt::Result {
        match self.0 {
            Item::Zero => write!(f, "zero word, length 4"),
            Item::Marker { length } => write!(f, "marker, length {length}"),
            Item::Padding { length } => write!(f, "padding, length {length}"),
            Item::Unknown { length, .. } => write!(f, "unknown, length {length}"),
            Item::Entry { entry, .. } => write_entry(f, entry),
            Item::Content { content, .. } => write_content(f, content),
        }
    }
}

impl fmt::Display for Shown<Shape> {
    fn fmt<W: fmt::Write>(&self, f: &mut fmt::Formatter<W>) -> fmt::Result {
        let Shape {
            blocks,
            size,
            page,
            batch,
        } = self.0;
        write!(
            f,
            "blocks {blocks}, bytes in a block {size}, in a page {page}, in a batch {batch}"
        )
    }
}
