// The worked examples of the rules, all together: proved of the definitions, and tried on the machine at hand.
#![tactic(auto)]

ghost use Rattle.std.specs.Prelude.{◌≡◌, true, eqb};
ghost use Rattle.crc32.specs.Sum.{sum};
ghost use Rattle.examples.specs.Worked.{Worked};

// Whether the sum of the bytes is this.
fn sums_to(bytes: &[u8], value: u32) -> bool
    ensures { result ≡ eqb (sum bytes.now) value }
{
    crc32::sum_of(bytes) == value
}

// Tries the sums on this machine: true, unless it does not compute as proved. The examples stand in the promise.
pub fn self_test() -> bool
    ensures passes { result ≡ true }
    ensures worked { Worked }
{
    let nothing = sums_to(&[], 0);
    let zero = sums_to(&[0x00], 0);
    let one = sums_to(&[0x01], 0x77073096);
    let top = sums_to(&[0x80], 0xedb88320);
    nothing & zero & one & top
}
