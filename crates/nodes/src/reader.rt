// The walk of a block: its items, handed out one by one, each with its place. The reader goes over the block's bytes once;
// names and data are parts of them.
ghost use Rattle.std.specs.Prelude.{◌≡◌, ◌≤◌, length};
ghost use Rattle.nodes.specs.Walk.{walk};

use crate::image::Image;
use crate::item::Item;
use flash::place::Place;

// An item with its place.
#[derive(Clone, Copy)]
pub struct Found<'a> {
    pub place: Place,
    pub item: Item<'a>,
}

// A reader of the items of one block.
#[derive(Drop)]
pub struct Reader<'a> {
    pub(crate) block: usize,
    pub(crate) image: Image<'a>,
    pub(crate) at: usize,
    ghost within: { at ≤ length image.bytes.now },
}

impl<'a> Reader<'a> {
    ghost use Rattle.nodes.specs.Image.{seen_in};
    ghost use Rattle.nodes.specs.Reading.{rest};

    // A reader at the start of a block, or at its end if the block does not begin with the marker.
    pub fn new(block: usize, image: Image<'a>) -> Reader<'a>
        ensures all { rest result ≡ walk (seen_in image.entry) }
        ensures block { result.block ≡ block }
    {
        let at = if image.is_marked() {
            0
        } else {
            image.bytes.len()
        };
        Reader { block, image, at }
    }
}

impl<'a> Iterator for Reader<'a> {
    ghost use Rattle.std.specs.Iterator.{at_most};
    ghost use Rattle.nodes.specs.Reading.{HandsOut, bytes_left};

    type Item = Found<'a>;

    ghost next_gives = { HandsOut };

    ghost remaining = { λ r. at_most (bytes_left r) };

    // The next item with its place, or nothing at the end of the walk.
    fn next(&mut self) -> Option<Found<'a>> {
        let at = self.at;
        let standing = self.image.tail(at).standing()?;
        self.at = at + standing.size;
        Some(Found {
            place: Place {
                block: self.block,
                offset: at,
            },
            item: standing.item,
        })
    }
}
