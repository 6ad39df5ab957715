// Numbers in slices of bytes, the low byte first.
ghost use Rattle.std.specs.Prelude.{◌≡◌, ◌+◌, ◌≤◌, length};
ghost use Rattle.nodes.specs.Fields.{le32};

// The number in the 4 bytes at a place.
#[tactic(auto, unfolding(crate::specs::Fields::le32))]
pub(crate) fn le_u32(s: &[u8], at: usize) -> u32
    requires { at + 4 ≤ length s.now }
    ensures { result ≡ le32 s.now at }
{
    u32::from_le_bytes([s[at], s[at + 1], s[at + 2], s[at + 3]])
}
