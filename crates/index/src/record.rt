// What the index keeps of a node: where it stands, how long it is, and the fields that are looked at. Data stays on the flash.
// The reader's records borrow from the block and have no place; one struct for both would put each field a step further away.
use crate::name::Name;
use flash::place::Place;

// A name in a directory, or its removal, which has `ino` and `dtype` 0. The type is kept as its byte: whatever stands on a flash
// is kept as it stands.
#[derive(Clone, Copy)]
pub struct EntryRecord {
    pub place: Place,
    pub length: usize,
    pub pino: u32,
    pub version: u32,
    pub ino: u32,
    pub dtype: u8,
    pub name: Name,
}

// A length of a file, and `dsize` bytes of it at `offset`, which a hole gives as zeros. A hole gives its bytes as any content
// does, so it is a flag and no variant; the mode is kept as it stands on the flash.
#[derive(Clone, Copy)]
pub struct ContentRecord {
    pub place: Place,
    pub length: usize,
    pub ino: u32,
    pub version: u32,
    pub mode: u32,
    pub isize: u32,
    pub offset: u32,
    pub dsize: u32,
    pub hole: bool,
}

impl EntryRecord {
    ghost use Rattle.std.specs.Prelude.{◌≡◌};
    ghost use Rattle.tree.specs.Nodes.{titled};
    ghost use Rattle.index.specs.Names.{below};
    ghost use Rattle.index.specs.Shown.{name_shown, entry_shown};

    // Whether it is of a name in a directory.
    pub(crate) fn is_titled(&self, pino: u32, name: &[u8]) -> bool
        ensures { result ≡ titled pino name.now (entry_shown self.now) }
    {
        self.pino == pino && self.name.as_slice() == name
    }

    // Whether its name is behind another by bytes.
    pub(crate) fn is_above(&self, name: &[u8]) -> bool
        ensures { result ≡ below name.now (name_shown self.now.name) }
    {
        name < self.name.as_slice()
    }
}

impl ContentRecord {
    ghost use Rattle.std.specs.Prelude.{◌≡◌, ◌+◌, ◌-◌, ◌^◌, min};
    ghost use Rattle.tree.specs.Nodes.{covers};
    ghost use Rattle.index.specs.Shown.{span_shown};

    // Whether it gives a byte of its file.
    #[tactic(auto, unfolding(tree::specs::Nodes::covers))]
    pub(crate) fn gives(&self, at: u32) -> bool
        ensures { result ≡ covers at (span_shown self.now) }
    {
        self.offset <= at && at - self.offset < self.dsize
    }

    // Where its bytes end, up to what a u32 holds.
    pub(crate) fn end(&self) -> u32
        ensures { result ≡ min (self.now.offset + self.now.dsize) (2 ^ 32 - 1) }
    {
        self.offset.saturating_add(self.dsize)
    }
}
