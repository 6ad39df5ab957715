// Items and bytes of two blocks, compared.
ghost use Rattle.std.specs.Prelude.{◌≡◌, ◌+◌, ◌≤◌, length, drop};
ghost use Rattle.nodes.specs.Image.{seen_in};
ghost use Rattle.nodes.specs.Views.{item_shown};
ghost use Rattle.nodes.specs.Walk.{alike};
ghost use Rattle.losses.specs.Compared.{view_counted};

use nodes::image::Image;
use nodes::item::Item;

// How many bytes of an item count.
pub(crate) fn counted_of(item: Item<'_>) -> usize
    ensures { result ≡ view_counted (item_shown item.entry) }
{
    match item {
        Item::Zero => 4,
        Item::Padding { .. } => 12,
        Item::Marker { length } | Item::Unknown { length, .. } => length,
        Item::Entry { bytes, .. } | Item::Content { bytes, .. } => bytes.len(),
    }
}

// How many bytes are compared at once.
const PART: usize = 64;

// Whether the n bytes at a place can be read in both blocks and are the same. Of the two images neither belongs to the other, so
// they are no struct.
fn part_is_same(want: Image<'_>, got: Image<'_>, at: usize, n: usize) -> bool
    ensures { result ≡ alike n (drop at (seen_in want.entry)) (drop at (seen_in got.entry)) }
{
    let meant = want.bytes_at(at, n);
    let found = got.bytes_at(at, n);
    meant
        .zip(found)
        .is_some_and(|(meant, found)| meant == found)
}

// The same in parts, so that a long item is left where it first differs or cannot be read.
pub(crate) fn are_same(want: Image<'_>, got: Image<'_>, at: usize, n: usize) -> bool
    requires { at + n ≤ length want.bytes.now }
    ensures { result ≡ alike n (drop at (seen_in want.entry)) (drop at (seen_in got.entry)) }
{
    let end = at + n;
    for i in (at..end).step_by(PART) {
        if !part_is_same(want, got, i, PART.min(end - i)) {
            return false;
        }
    }
    true
}
