// What is looked up among the entries: names, and what they stand for. A directory and a name are two arguments, as a struct would
// be made for each call and taken apart at once. Blocks come as a slice: a struct round that slice would say no more.
ghost use Rattle.std.specs.Prelude.{◌≡◌};
ghost use Rattle.tree.specs.Lookups.{title, counts, named};
ghost use Rattle.index.specs.Blocks.{all_entries};
ghost use Rattle.index.specs.Names.{standing, first_met, how_many, outdoes, next_above};
ghost use Rattle.index.specs.Shown.{entry_shown};

use crate::block::Block;
use crate::newest::{is_unbeaten, newest};
use crate::record::EntryRecord;

// The newest entry of a name in a directory.
pub(crate) fn newest_entry(blocks: &[Block], pino: u32, name: &[u8]) -> Option<EntryRecord>
    ensures { result ≡ title entry_shown (all_entries blocks.now) pino name.now }
{
    newest(blocks, |e: &EntryRecord| e.is_titled(pino, name))
}

// The entry of a name that counts: the newest, unless that is a removal.
pub fn entry_of(blocks: &[Block], pino: u32, name: &[u8]) -> Option<EntryRecord>
    ensures { result ≡ standing (title entry_shown (all_entries blocks.now) pino name.now) }
{
    newest_entry(blocks, pino, name).filter(|e| e.ino != 0)
}

// Whether an entry counts: no removal, and none of its name is newer.
#[tactic(auto, unfolding(tree::specs::Lookups::counts))]
pub(crate) fn counts(blocks: &[Block], entry: &EntryRecord) -> bool
    ensures { result ≡ counts entry_shown (all_entries blocks.now) (entry_shown entry.now) }
{
    entry.ino != 0
        && is_unbeaten(
            newest_entry(blocks, entry.pino, entry.name.as_slice()),
            entry.version,
        )
}

// Whether a number has a name.
#[tactic(auto, unfolding(tree::specs::Lookups::named))]
pub(crate) fn is_named(blocks: &[Block], ino: u32) -> bool
    ensures { result ≡ named entry_shown (all_entries blocks.now) ino }
{
    blocks
        .iter()
        .flat_map(|b| &b.entries)
        .any(|e| e.ino == ino && counts(blocks, e))
}

// Whether an entry is the one that a look-up of its name finds.
#[tactic(auto, unfolding(crate::specs::Names::first_met))]
fn is_first_met(blocks: &[Block], entry: &EntryRecord) -> bool
    ensures { result ≡ first_met (all_entries blocks.now) entry.now }
{
    let found = newest_entry(blocks, entry.pino, entry.name.as_slice());
    found.is_some_and(|f| f.place == entry.place)
}

// How many names a directory has.
pub fn count_names(blocks: &[Block], pino: u32) -> usize
    ensures { result ≡ how_many (all_entries blocks.now) pino }
{
    blocks
        .iter()
        .flat_map(|b| &b.entries)
        .filter(|e| e.pino == pino && e.ino != 0 && is_first_met(blocks, e))
        .fold(0, |n: usize, _| n.saturating_add(1))
}

// Whether an entry has a smaller name than the best so far.
fn is_lesser(one: &EntryRecord, best: Option<EntryRecord>) -> bool
    ensures { result ≡ outdoes one.now best }
{
    best.is_none_or(|b| b.is_above(one.name.as_slice()))
}

// The entry that counts with the smallest name above a given one, in a directory. Whether an entry counts is asked last, since it
// takes a look-up.
pub fn next_entry(blocks: &[Block], pino: u32, above: &[u8]) -> Option<EntryRecord>
    ensures { result ≡ next_above (all_entries blocks.now) pino above.now }
{
    blocks
        .iter()
        .flat_map(|b| &b.entries)
        .fold(None, |best, e| {
            if e.pino == pino && e.is_above(above) && is_lesser(e, best) && counts(blocks, e) {
                Some(*e)
            } else {
                best
            }
        })
}
