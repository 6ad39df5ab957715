// The marker with which a block begins, and what fills a batch.
ghost use Rattle.std.specs.Prelude.{◌≡◌, ◌%◌, ◌^◌, ◌<◌, ◌≤◌, true, ◌++◌, length, drop, is_some, if◌then◌else◌, Some, None, nat_le};
ghost use Rattle.nodes.specs.Walk as walks;
ghost use Rattle.encode.specs.Encode as items;
ghost use Rattle.encode.specs.Laid.{run};
ghost use Rattle.encode.specs.Laws.{Filled};
ghost use Rattle.encode.specs.Made.{Made, filling_goes};

use crate::words::{header, put_words};
use kinds::Kind;
use nodes::image::MARKER;

// Writes the marker at the front of `out` and answers its size; refuses want of room.
pub fn marker(out: &mut [u8]) -> Option<usize>
    ensures { Made (nat_le 12 (length out.old)) 12 (walks.marker ++ drop 12 out.old) out.old out.new result }
{
    *out.first_chunk_mut()? = MARKER;
    Some(MARKER.len())
}

// How many bytes fill a batch from a place on, if these are whole words, no more than a header can say, and there is room.
fn rest_within(batch: usize, end: usize, room: usize) -> Option<usize>
    ensures { result ≡ (if filling_goes batch end room then Some (items.rest_of_batch batch end) else None) }
{
    if batch == 0 {
        return None;
    }
    let n = (batch - end % batch) % batch;
    (n % 4 == 0 && n <= 0xffff_ffff && n <= room).then_some(n)
}

// Writes n bytes at the front of `out` that a walk passes over: padding, or zero words where there is no room for a header.
fn put_filling(out: &mut [u8], n: usize)
    requires { (n % 4 ≡ 0) × ((n < 2 ^ 32) × (n ≤ length out.old)) }
    ensures { out.new ≡ run (items.filling n) ++ drop n out.old }
{
    out[..n].fill(0);
    if n >= 12 {
        put_words(out, 0, &header(Kind::Padding, n as u32));
    }
}

// Makes at the front of `out` what fills a block from its end up to the next multiple of a batch, and answers its size; refuses
// where that is no whole number of words, more than a header can say, or more than there is room for. What is made passes.
pub fn filling(out: &mut [u8], end: usize, batch: usize) -> Option<usize>
    ensures made { Made (filling_goes batch end (length out.old)) (items.rest_of_batch batch end) (run (items.filling (items.rest_of_batch batch end)) ++ drop (items.rest_of_batch batch end) out.old) out.old out.new result }
    ensures filled { is_some result ≡ true → Filled (items.rest_of_batch batch end) }
{
    let n = rest_within(batch, end, out.len())?;
    put_filling(out, n);
    Some(n)
}
