// The nodes of a directory and of a file.
ghost use Rattle.std.specs.Prelude.{◌≡◌};
ghost use Rattle.nodes.specs.Shown.{entry_shown, content_shown};
ghost use Rattle.bench_parts.specs.Pieces.{entry_of, content_of};

use kinds::FileKind;
use nodes::record::{Content, Entry};

// The numbers of the root, of a directory and of a file.
pub const ROOT: u32 = 1;

pub const TOP: u32 = 2;

pub const TRACK: u32 = 3;

// A name in a directory, in its first version.
pub fn entry(pino: u32, ino: u32, kind: FileKind, name: &[u8]) -> Entry<'_>
    ensures { entry_shown result ≡ entry_of pino ino kind name.now }
{
    Entry {
        pino,
        version: 1,
        ino,
        dtype: kind.dtype(),
        name,
    }
}

// A run of less than 512 bytes of a file or directory, which ends with it.
pub fn content(ino: u32, version: u32, kind: FileKind, offset: u32, payload: &[u8]) -> Content<'_>
    ensures { content_shown result ≡ content_of ino version kind offset payload.now }
{
    let dsize = (payload.len() % 512) as u32;
    Content {
        ino,
        version,
        mode: kind.mode(),
        isize: offset.saturating_add(dsize),
        offset,
        dsize,
        compr: 0,
        payload,
    }
}
