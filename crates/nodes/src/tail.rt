// What is left of a block from a place on, and what stands there.
ghost use Rattle.std.specs.Prelude.{◌≡◌, ◌+◌, ◌^◌, ◌<◌, length};
ghost use Rattle.std.specs.List.{list_all};
ghost use Rattle.nodes.specs.Items.{stands};
ghost use Rattle.nodes.specs.Headers.{Headed, header_shown};
ghost use Rattle.nodes.specs.Seen.{readable, IsRead};
ghost use Rattle.nodes.specs.Views.{viewed, items_shown};

use crate::bytes::le_u32;
use crate::header::{Header, padded_len, passing_header};
use crate::item::Item;
use crate::node::{read_content, read_entry};
use kinds::Kind;

// The bytes of a block from the place `at` on, with the flags of the whole block.
#[derive(Clone, Copy)]
pub(crate) struct Tail<'a> {
    pub(crate) bytes: &'a [u8],
    pub(crate) readable: &'a [bool],
    pub(crate) at: usize,
    ghost fits: { at + length bytes.now < 2 ^ 64 },
}

// An item, and how many bytes of the block it takes up.
#[derive(Clone, Copy)]
pub(crate) struct Standing<'a> {
    pub(crate) item: Item<'a>,
    pub(crate) size: usize,
}

// Whether all flags are set.
fn are_set(flags: &[bool]) -> bool
    ensures { result ≡ list_all (λ flag. flag) flags.now }
{
    flags.iter().all(|flag| *flag)
}

// Whether the n bytes at a place could all be read.
fn readable_to(flags: &[bool], at: usize, n: usize) -> bool
    requires { (0 < n) × (at + n < 2 ^ 64) }
    ensures { result ≡ readable flags.now at n }
{
    flags.get(at / 4..(at + n).div_ceil(4)).is_some_and(are_set)
}

impl<'a> Tail<'a> {
    ghost use Rattle.nodes.specs.Tail.{seen_behind};
    ghost use Rattle.nodes.specs.Views.{sized, standing_shown};

    // The first n bytes, if there are so many and they could all be read.
    pub(crate) fn front(self, n: usize) -> Option<&'a [u8]>
        requires { 0 < n }
        ensures { IsRead (seen_behind self.entry) n result }
    {
        let front = self.bytes.get(..n)?;
        readable_to(self.readable, self.at, n).then_some(front)
    }

    // The item of which this is the header, if it passes. Of any kind but entries and contents the header decides.
    fn item(self, header: Header<'_>) -> Option<Item<'a>>
        requires { Headed self.readable.now self.at self.bytes.now (header_shown header) }
        ensures { items_shown result ≡ viewed (stands (seen_behind self.entry)) }
    {
        let length = header.totlen as usize;
        match Kind::try_from(header.kind) {
            Ok(Kind::Marker) => Some(Item::Marker { length }),
            Ok(Kind::Padding) => Some(Item::Padding { length }),
            Ok(Kind::Entry) => {
                let bytes = self.front(length)?;
                let entry = read_entry(bytes)?;
                Some(Item::Entry { bytes, entry })
            }
            Ok(Kind::Content) => {
                let bytes = self.front(length)?;
                let content = read_content(bytes)?;
                Some(Item::Content { bytes, content })
            }
            Err(_) => Some(Item::Unknown {
                kind: header.kind,
                length,
            }),
        }
    }

    // What stands at the front, if anything does. An item has to be readable as far as it decides what it is: 4 bytes of a
    // zero word, all of an entry or a content, else the header.
    pub(crate) fn standing(self) -> Option<Standing<'a>>
        ensures { standing_shown result ≡ sized (stands (seen_behind self.entry)) }
    {
        let word = self.front(4)?;
        if le_u32(word, 0) == 0 {
            return Some(Standing {
                item: Item::Zero,
                size: 4,
            });
        }
        self.front(12)?;
        let header = passing_header(self.bytes)?;
        let item = self.item(header)?;
        Some(Standing {
            item,
            size: padded_len(header.totlen),
        })
    }
}
