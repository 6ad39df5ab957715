// The two kinds of record, by what is the same in both. The two impls look alike, as each gives fields of its own.
ghost use Rattle.std.specs.Prelude.{◌≡◌, ℕ, max, List};
ghost use Rattle.index.specs.declared.block.Block.{Block as TheBlock};
ghost use Rattle.index.specs.Blocks.{entries_in, contents_in};
ghost use Rattle.index.specs.Shown.{entry_shown, span_shown};

use crate::block::Block;
use crate::record::{ContentRecord, EntryRecord};

// A kind of record that has versions, by where a block keeps those of the kind.
pub trait Record: Copy {
    ghost listed: { TheBlock → List Self };

    ghost number: { Self → ℕ };

    ghost version: { Self → ℕ };

    ghost highest: { Self → ℕ };

    fn of(block: &Block) -> &[Self]
        ensures { result.now ≡ listed block.now };

    // The number that its versions are counted for.
    fn number(&self) -> u32
        ensures { result ≡ number self.now };

    fn version(&self) -> u32
        ensures { result ≡ version self.now };

    // The highest number in any of its fields.
    fn highest(&self) -> u32
        ensures { result ≡ highest self.now };
}

impl Record for EntryRecord {
    ghost listed = { entries_in };

    ghost number = { λ e. (entry_shown e).pino };

    ghost version = { λ e. (entry_shown e).version };

    ghost highest = { λ e. max e.pino e.ino };

    fn of(block: &Block) -> &[EntryRecord] {
        block.entries.as_slice()
    }

    fn number(&self) -> u32 {
        self.pino
    }

    fn version(&self) -> u32 {
        self.version
    }

    fn highest(&self) -> u32 {
        self.pino.max(self.ino)
    }
}

impl Record for ContentRecord {
    ghost listed = { contents_in };

    ghost number = { λ c. (span_shown c).ino };

    ghost version = { λ c. (span_shown c).version };

    ghost highest = { λ c. c.ino };

    fn of(block: &Block) -> &[ContentRecord] {
        block.contents.as_slice()
    }

    fn number(&self) -> u32 {
        self.ino
    }

    fn version(&self) -> u32 {
        self.version
    }

    fn highest(&self) -> u32 {
        self.ino
    }
}
