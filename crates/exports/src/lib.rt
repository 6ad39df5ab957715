// What Rust and C programs can link: the sum, and the number of items on a block. Made for benchmarks/, which compares the
// proved code with plain Rust. The symbols that they link are in `exports_c`.
#![tactic(auto)]

ghost use Rattle.std.specs.Prelude.{◌≡◌, true, length, replicate};
ghost use Rattle.crc32.specs.Sum.{sum};
ghost use Rattle.nodes.specs.Image.{seen_in};
ghost use Rattle.nodes.specs.Seen.{seen};
ghost use Rattle.nodes.specs.Walk.{walk};

use nodes::image::Image;
use nodes::reader::Reader;

// The sum of the bytes.
pub fn mutsindry_sum(bytes: &[u8]) -> u32
    ensures { result ≡ sum bytes.now }
{
    crc32::sum_of(bytes)
}

// How many items the walk of a block meets.
fn count(image: Image<'_>) -> usize
    ensures { result ≡ length (walk (seen_in image.entry)) }
{
    Reader::new(0, image).count()
}

// How many items the walk of a block of at most 4,096 bytes meets, all of which can be read.
pub fn mutsindry_items(bytes: &[u8]) -> usize
    ensures { result ≡ length (walk (seen (replicate 1024 true) bytes.now)) }
{
    let readable = [true; 1024];
    count(Image {
        bytes,
        readable: &readable,
    })
}
