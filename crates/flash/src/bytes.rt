// Bytes of a flash.
ghost use Rattle.std.specs.Prelude.{◌≡◌, ◌≤◌, length};
ghost use Rattle.flash.specs.Extent.{used};

// Bytes as an erase leaves them, so many as are passed over in one step.
const BLANK: [u8; 64] = [0xff; 64];

// The bytes without whole steps of 0xFF at their end: a block that is blank, or begun, is not gone through byte by byte.
fn without_blank(bytes: &[u8]) -> &[u8]
    ensures value { used result.now ≡ used bytes.now }
    ensures within { length result.now ≤ length bytes.now }
{
    let mut front = bytes;
    while let Some(shorter) = front.strip_suffix(BLANK.as_slice()) {
        front = shorter;
    }
    front
}

// How far bytes reach before nothing but 0xFF is left, which is what an erase leaves.
pub fn reach(bytes: &[u8]) -> usize
    ensures value { result ≡ used bytes.now }
    ensures within { result ≤ length bytes.now }
{
    without_blank(bytes)
        .iter()
        .rposition(|byte| *byte != 0xff)
        .map_or(0, |last| last + 1)
}
