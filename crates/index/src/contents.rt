// What is looked up among the contents: lengths of files, and which content gives a byte. A byte is asked for by a number and a
// place, as callers have them: a struct of the two would be made for each call and taken apart at once.
// Blocks come as a slice beside what is asked: a struct round that slice would say no more.
ghost use Rattle.std.specs.Prelude.{◌≡◌};
ghost use Rattle.tree.specs.Lookups.{last, giver, length_of};
ghost use Rattle.index.specs.Blocks.{all_contents};
ghost use Rattle.index.specs.Runs.{start_after, run_at, RunsAlike};
ghost use Rattle.index.specs.Shown.{span_shown};

use crate::block::Block;
use crate::newest::{newer, newest};
use crate::record::ContentRecord;
use crate::run::Run;

// The newest content of a number.
pub(crate) fn newest_content(blocks: &[Block], ino: u32) -> Option<ContentRecord>
    ensures { result ≡ last span_shown (all_contents blocks.now) ino }
{
    newest(blocks, |c: &ContentRecord| c.ino == ino)
}

// The length of a file: what its newest content says, or 0.
pub fn file_length(blocks: &[Block], ino: u32) -> u32
    ensures { result ≡ length_of span_shown (last span_shown (all_contents blocks.now) ino) }
{
    newest_content(blocks, ino).map_or(0, |c| c.isize)
}

// The newest content that gives a byte of a file.
pub(crate) fn giver(blocks: &[Block], ino: u32, at: u32) -> Option<ContentRecord>
    ensures { result ≡ giver span_shown (all_contents blocks.now) ino at }
{
    newest(blocks, |c: &ContentRecord| c.ino == ino && c.gives(at))
}

// The newest content that gives a byte of a file, and where the first one that begins behind the byte begins, or a limit. Both are
// found in one pass, as no content is both: one that begins behind the byte does not give it.
fn giver_and_next(blocks: &[Block], ino: u32, at: u32, limit: u32) -> (Option<ContentRecord>, u32)
    ensures content { result.0 ≡ giver span_shown (all_contents blocks.now) ino at }
    ensures next { result.1 ≡ start_after (all_contents blocks.now) ino at limit }
{
    let (best, next) = blocks
        .iter()
        .flat_map(|b| &b.contents)
        .filter(|c| c.ino == ino)
        .fold(
            (None, limit),
            |(best, next), c| if c.offset > at {
                (best, next.min(c.offset))
            } else if c.gives(at) {
                (newer(best, c), next)
            } else {
                (best, next)
            },
        );
    (best.copied(), next)
}

// The content that gives a byte of a file, if any, and up to where it gives what follows, at most to a limit.
pub fn run_at(blocks: &[Block], ino: u32, at: u32, limit: u32) -> Run
    ensures value { result ≡ run_at (all_contents blocks.now) ino at limit }
    ensures alike { RunsAlike (all_contents blocks.now) ino at result.end }
{
    let (content, next) = giver_and_next(blocks, ino, at, limit);
    Run {
        content,
        end: content.map_or(next, |c| next.min(c.end())),
    }
}
