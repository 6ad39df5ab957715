// Tries the sum of short and long runs of bytes.
use std::alloc::{AllocError, Global};
use trials::random::Random;

static SHORT: [(&str, &[u8]); 5] = [
    ("nothing", b""),
    ("00", &[0x00]),
    ("01", &[0x01]),
    ("80", &[0x80]),
    ("123456789", b"123456789"),
];

// So many bytes that look random: the high bytes of random numbers.
fn random(heap: Global, n: usize) -> Result<Vec<u8>, AllocError> {
    let mut random = Random { state: 12345 };
    (0..n)
        .map(|_| {
            let [high, ..] = random.number().to_be_bytes();
            high
        })
        .collect(heap)
}

fn show(rt: &HostRuntime, label: &str, bytes: &[u8]) -> anyhow::Result<()> {
    let sum = crc32::sum_of(bytes);
    println!(rt; "sum of {label}: {sum:08x}")?;
    Ok(())
}

fn try_long(rt: &HostRuntime) -> anyhow::Result<()> {
    let rising: Vec<u8> = (0..=255).collect(rt.alloc())?;
    show(rt, "0 to 255", &rising)?;
    show(rt, "4096 bytes ff", &[0xff; 4096])?;
    let mixed = random(rt.alloc(), 1000)?;
    show(rt, "1000 random bytes", &mixed)
}

pub(crate) fn try_sums(rt: &HostRuntime) -> anyhow::Result<()> {
    for &(label, bytes) in &SHORT {
        show(rt, label, bytes)?;
    }
    try_long(rt)
}
