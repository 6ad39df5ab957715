// Entries and contents made from their fields.
ghost use Rattle.std.specs.Prelude.{◌≡◌, ℕ, ◌+◌, ◌*◌, ◌^◌, ◌<◌, ◌≤◌, true, List, length, is_some, nat_le};
ghost use Rattle.std.proofs.Common.{lit<};
ghost use Rattle.crc32.specs.Sum.{sum};
ghost use Rattle.flash.specs.Cells.{over};
ghost use Rattle.kinds.specs.Kinds.{kind_value};
ghost use Rattle.nodes.specs.Fields.{padded};
ghost use Rattle.nodes.specs.Items.{Item, size};
ghost use Rattle.nodes.specs.Shown.{entry_shown, content_shown};
ghost use Rattle.encode.specs.Encode.{entry_item, content_item};
ghost use Rattle.encode.specs.Laid.{WellFormed};
ghost use Rattle.encode.specs.Laws.{EntryTrip, ContentTrip};
ghost use Rattle.encode.specs.Made.{ItemMade};
ghost use Rattle.encode.specs.Node.{node_item, entry_words, entry_sums, content_words, content_sums};

use crate::words::{header, put_words};
use crc32::sum_of;
use kinds::Kind;
use nodes::record::{Content, Entry};

// What a node is made of: a header, WORDS words, two sums, and the bytes that it holds, at most MOST. The kind is no constant,
// since the check does not state one yet for a type with a lifetime.
pub trait Node<const WORDS: usize, const MOST: usize> {
    ghost kind: { ℕ };

    ghost words: { Self → ℕ → List ℕ };

    ghost sums: { ℕ → ℕ → List ℕ };

    ghost held: { Self → List ℕ };

    // The item that has these fields, and that it passes and is read as them.
    ghost item: { Self → Item };

    ghost trip: { Self → Type 0 };

    fn kind(&self) -> Kind
        ensures { kind_value result ≡ kind };

    // The words from the header up to the sums, where n bytes are held.
    fn words(&self, n: u16) -> [u32; WORDS]
        ensures value { result ≡ words self.now n }
        ensures made { length (held self.now) ≤ MOST → (item self.now ≡ node_item kind (20 + 4 * WORDS + length (held self.now)) (words self.now (length (held self.now))) sums (held self.now)) × (sum (held self.now) < 2 ^ 32 → trip self.now) };

    // The two sums in the order of this kind: of what stands before them, and of what is held.
    fn sums(&self, before: u32, behind: u32) -> [u32; 2]
        ensures { result ≡ sums before behind };

    // The bytes behind the sums, which decide how large the node is.
    fn held(&self) -> &[u8]
        ensures value { result.now ≡ held self.now }
        ensures long { length (item self.now) ≡ 20 + 4 * WORDS + length (held self.now) }
        ensures sized { length (held self.now) ≤ MOST → size (item self.now) ≡ padded (20 + 4 * WORDS + length (held self.now)) };

    ghost small: { (WORDS < 256) × (MOST < 65536) };

    ghost passes: { (x : Self) → trip x → WellFormed (item x) };
}

impl Node<5, 32> for Entry<'_> {
    ghost kind = { 0xE001 };

    ghost words = { λ e n. entry_words (entry_shown e) n };

    ghost held = { λ e. e.name.now };

    ghost sums = { entry_sums };

    ghost item = { λ e. entry_item (entry_shown e) };

    ghost trip = { λ e. EntryTrip (entry_shown e) };

    ghost small = { (lit< tt, lit< tt) };

    ghost passes = { λ x t. t.0 };

    fn kind(&self) -> Kind {
        Kind::Entry
    }

    // The last word has the name's length and the type in its low bytes.
    fn words(&self, n: u16) -> [u32; 5] {
        [
            self.pino,
            self.version,
            self.ino,
            0,
            n as u32 + 256 * self.dtype as u32,
        ]
    }

    fn held(&self) -> &[u8] {
        self.name
    }

    fn sums(&self, before: u32, behind: u32) -> [u32; 2] {
        [before, behind]
    }
}

impl Node<12, 512> for Content<'_> {
    ghost kind = { 0xE002 };

    ghost words = { λ c n. content_words (content_shown c) n };

    ghost held = { λ c. c.payload.now };

    ghost sums = { content_sums };

    ghost item = { λ c. content_item (content_shown c) };

    ghost trip = { λ c. ContentTrip (content_shown c) };

    ghost small = { (lit< tt, lit< tt) };

    ghost passes = { λ x t. t.0 };

    fn kind(&self) -> Kind {
        Kind::Content
    }

    // The last word has the way of compression in its low byte.
    fn words(&self, n: u16) -> [u32; 12] {
        [
            self.ino,
            self.version,
            self.mode,
            0,
            self.isize,
            0,
            0,
            0,
            self.offset,
            n as u32,
            self.dsize,
            self.compr as u32,
        ]
    }

    fn held(&self) -> &[u8] {
        self.payload
    }

    fn sums(&self, before: u32, behind: u32) -> [u32; 2] {
        [behind, before]
    }
}

// Writes a node at the front of `out`.
fn put_node<const WORDS: usize, const MOST: usize, N: Node<WORDS, MOST>>(node: &N, out: &mut [u8])
    requires short { length (N.held node.now) ≤ MOST }
    requires room { 20 + 4 * WORDS + length (N.held node.now) ≤ length out.old }
    ensures bytes { out.new ≡ over out.old 0 (N.item node.now) }
    ensures trip { N.trip node.now }
{
    let held = node.held();
    let sums = 12 + 4 * WORDS;
    let end = sums + 8 + held.len();
    put_words(out, 0, &header(node.kind(), end as u32));
    put_words(out, 12, &node.words(held.len() as u16));
    let before = sum_of(&out[..sums]);
    put_words(out, sums, &node.sums(before, sum_of(held)));
    out[sums + 8..end].copy_from_slice(held);
}

// Makes a node at the front of `out` and answers its size on a block; refuses a name or data above the most bytes, and want of
// room. What is made passes, and is read as the same fields.
pub fn encode<const WORDS: usize, const MOST: usize, N: Node<WORDS, MOST>>(
    node: &N,
    out: &mut [u8],
) -> Option<usize>
    ensures made { ItemMade (nat_le (length (N.held node.now)) MOST) (N.item node.now) out.old out.new result }
    ensures trip { is_some result ≡ true → N.trip node.now }
{
    let n = node.held().len();
    if n > MOST {
        return None;
    }
    let end = 20 + 4 * WORDS + n;
    let size = end.next_multiple_of(4);
    if size > out.len() {
        return None;
    }
    put_node(node, out);
    out[end..size].fill(0);
    Some(size)
}
