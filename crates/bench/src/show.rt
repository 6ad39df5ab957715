// How items and shapes are shown. `bench_piles` shows the same in other words, so each has its own.
use bench_parts::show::text;
use flash::place::Shape;
use nodes::item::Item;
use nodes::record::{Content, Entry};
use std::fmt;

// An item or a shape with its fields.
#[derive(Clone, Copy)]
pub(crate) struct Shown<T>(pub(crate) T);

fn write_entry<W: fmt::Write>(f: &mut fmt::Formatter<W>, entry: Entry<'_>) -> fmt::Result {
    let Entry {
        pino,
        version,
        ino,
        dtype,
        name,
    } = entry;
    let name = text(name);
    write!(
        f,
        "entry of directory {pino}, version {version}: \"{name}\" is number {ino}, type {dtype}"
    )
}

fn write_content<W: fmt::Write>(f: &mut fmt::Formatter<W>, content: Content<'_>) -> fmt::Result {
    let Content {
        ino,
        version,
        isize,
        offset,
        dsize,
        payload,
        ..
    } = content;
    write!(
        f,
        "content of number {ino}, version {version}: length {isize}, {dsize} bytes at {offset}"
    )?;
    if dsize == 0 {
        return Ok(());
    }
    let bytes = text(payload);
    write!(f, "\n    {bytes:?}")
}

impl fmt::Display for Shown<Item<'_>> {
    fn fmt<W: fmt::Write>(&self, f: &mut fmt::Formatter<W>) -> fmt::Result {
        match self.0 {
            Item::Zero => write!(f, "zero word"),
            Item::Marker { length } => write!(f, "marker of {length} bytes"),
            Item::Padding { length } => write!(f, "padding of {length} bytes"),
            Item::Unknown { kind, length } => write!(f, "kind {kind:#06x} of {length} bytes"),
            Item::Entry { entry, .. } => write_entry(f, entry),
            Item::Content { content, .. } => write_content(f, content),
        }
    }
}

impl fmt::Display for Shown<Shape> {
    fn fmt<W: fmt::Write>(&self, f: &mut fmt::Formatter<W>) -> fmt::Result {
        let Shape {
            blocks,
            size,
            page,
            batch,
        } = self.0;
        write!(
            f,
            "{blocks} blocks of {size} bytes, pages of {page}, batches of {batch}"
        )
    }
}
