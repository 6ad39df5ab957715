// The header of an item: the magic, its kind, its length and the sum of these.
ghost use Rattle.std.specs.Prelude.{◌≡◌, ◌+◌};
ghost use Rattle.nodes.specs.Fields.{padded};
ghost use Rattle.nodes.specs.Headers.{head_shown, head_of, passing};

// What a header says, and the bytes behind it. The kind is a number, as kinds that we do not know pass too.
#[derive(Clone, Copy)]
pub struct Header<'a> {
    pub kind: u16,
    pub totlen: u32,
    pub sum: u32,
    pub rest: &'a [u8],
}

// The header that bytes begin with, if they begin with the magic.
#[tactic(auto, unfolding(crate::specs::Fields::le16, crate::specs::Fields::le32))]
pub(crate) fn read_header(bytes: &[u8]) -> Option<Header<'_>>
    ensures { head_shown result ≡ head_of bytes.now }
{
    match bytes {
        [
            0x85,
            0x19,
            k0,
            k1,
            l0,
            l1,
            l2,
            l3,
            s0,
            s1,
            s2,
            s3,
            rest @ ..,
        ] => Some(Header {
            kind: u16::from_le_bytes([*k0, *k1]),
            totlen: u32::from_le_bytes([*l0, *l1, *l2, *l3]),
            sum: u32::from_le_bytes([*s0, *s1, *s2, *s3]),
            rest,
        }),
        _ => None,
    }
}

// How many bytes of the block an item of this length takes up: up to the next multiple of 4.
pub(crate) fn padded_len(totlen: u32) -> usize
    ensures { result ≡ padded totlen }
{
    (totlen as usize).next_multiple_of(4)
}

// The header at the front of what is left of a block, if it passes: the magic, its sum, a length of at least its own, and
// within the block.
pub(crate) fn passing_header(bytes: &[u8]) -> Option<Header<'_>>
    ensures { head_shown result ≡ passing bytes.now }
{
    let header = read_header(bytes)?;
    if header.sum != crc32::sum_of(&bytes[..8]) || header.totlen < 12 {
        return None;
    }
    if padded_len(header.totlen) > bytes.len() {
        return None;
    }
    Some(header)
}
