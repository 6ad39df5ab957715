// Which blocks can be done without.
ghost use Rattle.std.specs.Prelude.{◌≡◌, ◌<◌, ◌||◌, [], map, length, if◌then◌else◌};
ghost use Rattle.std.specs.List.{list_any};
ghost use Rattle.tree.specs.Nodes.{entry, content};
ghost use Rattle.tree.specs.Spent.{marks};
ghost use Rattle.index.specs.Blocks.{entries_in, contents_in};
ghost use Rattle.index.specs.Missed.{nodes_in, twin_of, need, missed, misses, with_state, changed, marked};

use crate::block::{Block, State};
use crate::needed::Node;
use crate::record::{ContentRecord, EntryRecord};

// Whether a node would be missed without its block `home`: it is needed, and no other block that is not spent has a twin.
#[tactic(auto, unfolding(crate::specs::Missed::missed))]
pub fn is_missed<N: Node>(blocks: &[Block], home: usize, one: &N) -> bool
    ensures { result ≡ missed blocks.now home (N.node one.now) }
{
    one.is_needed(blocks) && !one.has_twin(blocks, home)
}

// Whether one of some records would be missed without the block `home`.
fn is_any_missed<N: Node>(blocks: &[Block], home: usize, records: &[N]) -> bool
    ensures { result ≡ list_any (λ r. missed blocks.now home (N.node r)) records.now }
{
    records.iter().any(|r| is_missed(blocks, home, r))
}

// Whether a record of a block would.
fn has_missed(blocks: &[Block], home: usize, block: &Block) -> bool
    ensures { result ≡ (list_any (λ e. missed blocks.now home (entry e)) (entries_in block.now) || list_any (λ c. missed blocks.now home (content c)) (contents_in block.now)) }
{
    is_any_missed::<EntryRecord>(blocks, home, &block.entries)
        || is_any_missed::<ContentRecord>(blocks, home, &block.contents)
}

// Whether a block has a node that would be missed without it.
fn misses(blocks: &[Block], home: usize) -> bool
    ensures { result ≡ misses blocks.now home }
{
    blocks
        .get(home)
        .is_some_and(|b| has_missed(blocks, home, b))
}

// Takes every block for full.
fn fill_all(blocks: &mut [Block])
    ensures { blocks.new ≡ map (with_state State.Full) blocks.old }
{
    for block in blocks.iter_mut() {
        block.state = State::Full;
    }
}

// Takes a block for spent that can be done without.
fn judge(blocks: &mut [Block], i: usize)
    requires { i < length blocks.old }
    ensures { blocks.new ≡ (if misses blocks.old i then blocks.old else changed i State.Spent blocks.old) }
{
    if !misses(blocks, i) {
        blocks[i].state = State::Spent;
    }
}

// Judges full blocks in rising order. By their numbers, since all blocks are looked at while one of them changes.
fn judge_all(blocks: &mut [Block])
    requires { blocks.old ≡ map (with_state State.Full) blocks.old }
    ensures { blocks.new ≡ marked (marks twin_of (need blocks.old) [] (map nodes_in blocks.old)) blocks.old }
{
    for i in 0..blocks.len() {
        judge(blocks, i);
    }
}

// Finds the blocks that can be done without: in rising order a block is spent if each needed node in it has a twin in another
// block that is not so far found spent, else it is full.
pub fn find_spent(blocks: &mut [Block])
    ensures { blocks.new ≡ marked (marks twin_of (need blocks.old) [] (map nodes_in blocks.old)) blocks.old }
{
    fill_all(blocks);
    judge_all(blocks);
}
