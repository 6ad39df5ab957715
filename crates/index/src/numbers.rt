// Versions and numbers in use.
ghost use Rattle.std.specs.Prelude.{◌≡◌, max, fold};
ghost use Rattle.std.specs.List.{flat_map};
ghost use Rattle.tree.specs.Numbers.{greater_of, highest_version, highest_number};
ghost use Rattle.index.specs.Blocks.{all_entries, all_contents};
ghost use Rattle.index.specs.Shown.{entry_shown, span_shown};

use crate::block::Block;
use crate::kind::Record;
use crate::record::{ContentRecord, EntryRecord};

// The highest version of a number among some records, and at least one found before.
fn version_in<R: Record>(records: &[R], number: u32, found: u32) -> u32
    ensures { result ≡ fold (λ n r. greater_of number n (R.number r) (R.version r)) found records.now }
{
    records.iter().fold(
        found,
        |n, r| if r.number() == number {
            n.max(r.version())
        } else {
            n
        },
    )
}

// The same among the records of a kind, block by block: a chain over all of them would carry the block along from record to record.
fn version_among<R: Record>(blocks: &[Block], number: u32, found: u32) -> u32
    ensures { result ≡ fold (λ n r. greater_of number n (R.number r) (R.version r)) found (flat_map R.listed blocks.now) }
{
    blocks
        .iter()
        .fold(found, |n, b| version_in::<R>(R::of(b), number, n))
}

// The highest version that stands of a number, in either kind, or 0.
pub fn highest_version(blocks: &[Block], number: u32) -> u32
    ensures { result ≡ highest_version entry_shown span_shown (all_entries blocks.now) (all_contents blocks.now) number }
{
    let of_entries = version_among::<EntryRecord>(blocks, number, 0);
    version_among::<ContentRecord>(blocks, number, of_entries)
}

// The highest number among some records, and at least one found before.
fn number_in<R: Record>(records: &[R], found: u32) -> u32
    ensures { result ≡ fold (λ n r. max n (R.highest r)) found records.now }
{
    records.iter().fold(found, |n, r| n.max(r.highest()))
}

// The same among the records of a kind.
fn number_among<R: Record>(blocks: &[Block], found: u32) -> u32
    ensures { result ≡ fold (λ n r. max n (R.highest r)) found (flat_map R.listed blocks.now) }
{
    blocks
        .iter()
        .fold(found, |n, b| number_in::<R>(R::of(b), n))
}

// The highest number that stands in any field, and at least 1, the root's.
pub fn highest_number(blocks: &[Block]) -> u32
    ensures { result ≡ highest_number entry_shown span_shown (all_entries blocks.now) (all_contents blocks.now) }
{
    let of_entries = number_among::<EntryRecord>(blocks, 1);
    number_among::<ContentRecord>(blocks, of_entries)
}
