// Which nodes the tree cannot do without. Blocks come as a slice beside a record: a struct round that slice would say no more.
ghost use Rattle.std.specs.Prelude.{◌≡◌, ◌+◌, ◌^◌, ◌<◌, min};
ghost use Rattle.std.specs.List.{flat_map};
ghost use Rattle.tree.specs.Lookups.{any_below, outlives, giver, last, length_of, shows};
ghost use Rattle.tree.specs.Nodes.{entry, content};
ghost use Rattle.tree.specs.Spent.{has_twin};
ghost use Rattle.index.specs.Beaten.{beaten_until};
ghost use Rattle.index.specs.Blocks.{all_entries, all_contents};
ghost use Rattle.index.specs.Missed.{Kept, nodes_in, kept_in, elsewhere, twin_of, need};
ghost use Rattle.index.specs.Shown.{entry_shown, span_shown};

use crate::block::Block;
use crate::contents::{file_length, giver, newest_content};
use crate::elsewhere::stands_elsewhere;
use crate::entries::{is_named, newest_entry};
use crate::kind::Record;
use crate::newest::is_unbeaten;
use crate::record::{ContentRecord, EntryRecord};
use tree::supersedes;

// Whether an older entry of the same name stands, in whichever block: its own, and those that are spent, count too.
fn outlives(blocks: &[Block], one: &EntryRecord) -> bool
    ensures { result ≡ outlives entry_shown (all_entries blocks.now) (entry_shown one.now) }
{
    let title = one.name.as_slice();
    blocks.iter().flat_map(|b| &b.entries).any(|e| e.is_titled(one.pino, title)
        && supersedes(one.version, e.version))
}

// Where the bytes end that a newer content gives instead, if one gives the byte at a place.
fn beaten_until(blocks: &[Block], content: &ContentRecord, at: u32) -> Option<u32>
    ensures { result ≡ beaten_until content.now.version (giver span_shown (all_contents blocks.now) content.now.ino at) }
{
    giver(blocks, content.ino, at)
        .filter(|other| supersedes(other.version, content.version))
        .map(|other| other.end())
}

// Where a content has no more bytes below the length of its file.
fn shown_end(blocks: &[Block], content: &ContentRecord) -> u32
    ensures value { result ≡ min (length_of span_shown (last span_shown (all_contents blocks.now) content.now.ino)) (content.now.offset + content.now.dsize) }
    ensures fits { result < 2 ^ 32 }
{
    file_length(blocks, content.ino).min(content.end())
}

// Whether a content gives a byte below the length of its file. Where a newer one does instead, all its bytes are passed over.
fn is_shown(blocks: &[Block], content: &ContentRecord) -> bool
    ensures { result ≡ any_below (shows span_shown (all_contents blocks.now) (span_shown content.now)) (length_of span_shown (last span_shown (all_contents blocks.now) content.now.ino)) }
{
    let end = shown_end(blocks, content);
    let mut at = content.offset;
    while at < end {
        let Some(next) = beaten_until(blocks, content, at) else {
            return true;
        };
        at = next;
    }
    false
}

// A record as a node of the tree.
pub trait Node: Record {
    ghost node: { Self → Kept };

    // Whether the tree needs it.
    fn is_needed(&self, blocks: &[Block]) -> bool
        ensures { result ≡ need blocks.now (node self.now) };

    // Whether a block other than `home` that is not spent has a twin. One line in each impl, as what ties the twins of a node to
    // those of its record is proved kind by kind.
    fn has_twin(&self, blocks: &[Block], home: usize) -> bool
        ensures { result ≡ has_twin twin_of (node self.now) (flat_map (kept_in nodes_in) (elsewhere home blocks.now)) };
}

impl Node for EntryRecord {
    ghost node = { entry };

    // The newest of its name, and it names a number or an older entry of the name still stands, which a removal keeps from
    // counting again.
    #[tactic(auto, unfolding(crate::specs::Missed::need, tree::specs::Lookups::needed_entry))]
    fn is_needed(&self, blocks: &[Block]) -> bool {
        is_unbeaten(
            newest_entry(blocks, self.pino, self.name.as_slice()),
            self.version,
        ) && (self.ino != 0 || outlives(blocks, self))
    }

    fn has_twin(&self, blocks: &[Block], home: usize) -> bool {
        stands_elsewhere(blocks, home, self)
    }
}

impl Node for ContentRecord {
    ghost node = { content };

    // Its number has a name, and it is the newest of the number or gives a byte below the length.
    #[tactic(auto, unfolding(crate::specs::Missed::need, tree::specs::Lookups::seen))]
    fn is_needed(&self, blocks: &[Block]) -> bool {
        is_named(blocks, self.ino)
            && (is_unbeaten(newest_content(blocks, self.ino), self.version)
                || is_shown(blocks, self))
    }

    fn has_twin(&self, blocks: &[Block], home: usize) -> bool {
        stands_elsewhere(blocks, home, self)
    }
}
