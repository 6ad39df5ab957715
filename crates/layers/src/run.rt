// Bytes on their way to a place.
ghost use Rattle.std.specs.Prelude.{◌≡◌, ◌+◌, ◌^◌, ◌<◌, ◌≤◌, length, take, drop};

use flash::place::Place;

#[derive(Clone, Copy)]
pub(crate) struct Run<'a> {
    pub(crate) at: Place,
    pub(crate) bytes: &'a [u8],
    ghost fits: { at.offset + length bytes.now < 2 ^ 64 },
}

impl<'a> Run<'a> {
    // The first n bytes, and the rest.
    pub(crate) fn split_at(self, n: usize) -> (Run<'a>, Run<'a>)
        requires { n ≤ length self.bytes.now }
        ensures first { (result.0.at ≡ self.entry.at) × (result.0.bytes.now ≡ take n self.entry.bytes.now) }
        ensures rest { (result.1.at ≡ record self.entry.at { offset = self.entry.at.offset + n }) × (result.1.bytes.now ≡ drop n self.entry.bytes.now) }
    {
        let Run { at, bytes } = self;
        let (first, rest) = bytes.split_at(n);
        let behind = Place {
            offset: at.offset + n,
            ..at
        };
        (
            Run { at, bytes: first },
            Run {
                at: behind,
                bytes: rest,
            },
        )
    }
}
