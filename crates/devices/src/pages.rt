// A block of a NAND chip: how large its pages are, and which of them cannot be read.
ghost use Rattle.std.specs.Prelude.{◌≡◌, ◌+◌, ◌*◌, ◌<◌, ◌≤◌, false, not, length, slice_index_or};
ghost use Rattle.flash.specs.Refused.{readable, part};
ghost use Rattle.devices.specs.Sizes.{bytes_in, size_of};
ghost use Rattle.devices.specs.Pages.{shown_by, pages_used, mark_of};

use flash::bytes::reach;
use std::array;

// Pages of 512 or of 528 bytes.
#[derive(Clone, Copy, Debug, PartialEq, Eq)]
pub enum NandPage {
    P512 = 512,
    P528 = 528,
}

impl NandPage {
    // The bytes of a page.
    pub fn bytes(self) -> usize
        ensures value { result ≡ bytes_in self }
        ensures some { 0 < result }
        ensures few { result ≤ 528 }
    {
        self as usize
    }
}

// The bytes of a block, and for each of its eight pages whether it cannot be read.
#[derive(Clone, Copy)]
pub(crate) struct Block<'a> {
    pub(crate) bytes: &'a [u8],
    pub(crate) lost: &'a [bool],
    pub(crate) page: usize,
    ghost some: { 0 < page },
    ghost few: { page ≤ 528 },
    ghost flags: { length lost.now ≡ 8 },
    ghost full: { length bytes.now ≡ size_of page },
}

impl Block<'_> {
    // Whether a page is in use: it cannot be read, or is not all 0xFF.
    fn in_use(&self, i: usize) -> bool
        requires { i < 8 }
        ensures { result ≡ slice_index_or (pages_used self.now.page self.now.lost.now self.now.bytes.now) i false }
    {
        self.lost[i] || reach(&self.bytes[i * self.page..(i + 1) * self.page]) > 0
    }

    // For each page whether it is in use.
    fn pages_used(&self) -> [bool; 8]
        ensures { result ≡ pages_used self.now.page self.now.lost.now self.now.bytes.now }
    {
        array::from_fn(|i| self.in_use(i))
    }

    // The end of the last page that is in use. As for bytes, but with a function for both, its closure and what it
    // says of it would be longer than the chain.
    pub(crate) fn mark(&self) -> usize
        ensures { result ≡ mark_of self.now.page self.now.lost.now self.now.bytes.now }
    {
        let pages = self
            .pages_used()
            .iter()
            .rposition(|used| *used)
            .map_or(0, |last| last + 1);
        pages * self.page
    }

    // Whether one of n bytes from an offset on lies in a page that cannot be read.
    pub(crate) fn is_lost(&self, offset: usize, n: usize) -> bool
        requires { offset + n ≤ size_of self.now.page }
        ensures { result ≡ not (readable (part (shown_by self.now.page self.now.lost.now self.now.bytes.now) offset n)) }
    {
        if n == 0 {
            return false;
        }
        let first = offset / self.page;
        let last = (offset + n - 1) / self.page;
        self.lost[first..last + 1].contains(&true)
    }
}
