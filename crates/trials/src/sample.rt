// Nodes that pass, for the programs to lay and to change.
ghost use Rattle.std.specs.Prelude.{◌≡◌};
ghost use Rattle.nodes.specs.Shown.{entry_shown, content_shown};
ghost use Rattle.trials.specs.Samples.{entry_of, content_of};

use kinds::FileKind;
use nodes::record::{Content, Entry};

// A name in the root, in version 3.
pub fn entry(ino: u32, dtype: u8, name: &[u8]) -> Entry<'_>
    ensures { entry_shown result ≡ entry_of ino dtype name.now }
{
    Entry {
        pino: 1,
        version: 3,
        ino,
        dtype,
        name,
    }
}

// Of number 2, in version 4: a part of 1,000 bytes, from 100 on.
pub fn content(dsize: u32, compr: u8, payload: &[u8]) -> Content<'_>
    ensures { content_shown result ≡ content_of dsize compr payload.now }
{
    Content {
        ino: 2,
        version: 4,
        mode: FileKind::File.mode(),
        isize: 1000,
        offset: 100,
        dsize,
        compr,
        payload,
    }
}
