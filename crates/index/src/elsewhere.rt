// Twins in other blocks: records of one kind, number and version, which are copies of one node. Blocks come as a slice beside the
// number of one of them: a struct round that slice would say no more.
ghost use Rattle.std.specs.Prelude.{◌≡◌, suc, ◌&&◌, take, drop, ◌==◌};
ghost use Rattle.std.specs.List.{flat_map, list_any};
ghost use Rattle.index.specs.Missed.{kept_in, elsewhere};

use crate::block::Block;
use crate::kind::Record;

// What a block has of a kind, if it is not spent.
fn kept<R: Record>(block: &Block) -> &[R]
    ensures { result.now ≡ kept_in R.listed block.now }
{
    if block.is_spent() { &[] } else { R::of(block) }
}

// Whether a block that is not spent has a twin of a record.
fn stands_in<R: Record>(blocks: &[Block], one: &R) -> bool
    ensures { result ≡ list_any (λ x. R.number x == R.number one.now && R.version x == R.version one.now) (flat_map (kept_in R.listed) blocks.now) }
{
    let (number, version) = (one.number(), one.version());
    blocks
        .iter()
        .flat_map(|b| kept::<R>(b))
        .any(|r| r.number() == number && r.version() == version)
}

// The blocks below that of a number, and those above it.
fn others(blocks: &[Block], home: usize) -> (&[Block], &[Block])
    ensures below { result.0.now ≡ take home blocks.now }
    ensures above { result.1.now ≡ drop (suc home) blocks.now }
{
    let (below, rest) = blocks.split_at(home.min(blocks.len()));
    (below, &rest[1.min(rest.len())..])
}

// Whether one of the blocks other than `home` does.
pub(crate) fn stands_elsewhere<R: Record>(blocks: &[Block], home: usize, one: &R) -> bool
    ensures { result ≡ list_any (λ x. R.number x == R.number one.now && R.version x == R.version one.now) (flat_map (kept_in R.listed) (elsewhere home blocks.now)) }
{
    let (below, above) = others(blocks, home);
    stands_in(below, one) || stands_in(above, one)
}
