// The symbols of `exports` that Rust and C programs link, as a static library. Each calls the function of its name, and
// promises what that promises; a crate is a library or a static library, and not both.
#![tactic(auto)]

ghost use Rattle.std.specs.Prelude.{◌≡◌, true, length, replicate};
ghost use Rattle.crc32.specs.Sum.{sum};
ghost use Rattle.nodes.specs.Seen.{seen};
ghost use Rattle.nodes.specs.Walk.{walk};

// The sum of the bytes.
#[unsafe(no_mangle)]
pub extern "C" fn mutsindry_sum(bytes: &[u8]) -> u32
    ensures { result ≡ sum bytes.now }
{
    exports::mutsindry_sum(bytes)
}

// How many items the walk of a block of at most 4,096 bytes meets, all of which can be read.
#[unsafe(no_mangle)]
pub extern "C" fn mutsindry_items(bytes: &[u8]) -> usize
    ensures { result ≡ length (walk (seen (replicate 1024 true) bytes.now)) }
{
    exports::mutsindry_items(bytes)
}
