// Little-endian words written at a place, the header's words among them.
ghost use Rattle.std.specs.Prelude.{◌≡◌, ◌+◌, ◌*◌, ◌≤◌, length};
ghost use Rattle.flash.specs.Cells.{over};
ghost use Rattle.kinds.specs.Kinds.{kind_value};
ghost use Rattle.encode.specs.Encode.{head, spread};

use crc32::sum_of;
use kinds::Kind;

// Writes words at a place, each with its low byte first; by index, since behind `chunks_exact_mut` a proof knows how long a
// row is, and no byte of it (tried).
pub(crate) fn put_words(out: &mut [u8], at: usize, words: &[u32])
    requires { at + 4 * length words.now ≤ length out.old }
    ensures { out.new ≡ over out.old at (spread words.now) }
{
    for (i, w) in words.iter().enumerate() {
        let at = at + 4 * i;
        out[at..at + 4].copy_from_slice(&w.to_le_bytes());
    }
}

// The words of a header: magic and kind, the length, and the sum of these two.
pub(crate) fn header(kind: Kind, totlen: u32) -> [u32; 3]
    ensures { spread result ≡ head (kind_value kind) totlen }
{
    let first = 0x1985 + 0x10000 * u16::from(kind) as u32;
    let sum = sum_of([first.to_le_bytes(), totlen.to_le_bytes()].as_flattened());
    [first, totlen, sum]
}
