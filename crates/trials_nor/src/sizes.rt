// Tries memories of several sizes: a chip of so many blocks, or a refusal with the memory handed back.
use devices::nor::Nor;
use flash::interface::Flash;

static SIZES: [usize; 12] = [
    0, 4, 4096, 12288, 16383, 16384, 16385, 20480, 65535, 65536, 65540, 69632,
];

fn try_size(rt: &HostRuntime, n: usize) -> anyhow::Result<()> {
    let mut memory = vec![in rt.alloc(); 0; n]?;
    print!(rt; "memory of {n} bytes: ")?;
    match Nor::new(&mut memory) {
        Ok(chip) => {
            let blocks = chip.shape().blocks;
            println!(rt; "{blocks} blocks")?;
        }
        Err((refusal, back)) => {
            let number = u8::from(refusal);
            let back = back.len();
            println!(rt; "refused {number}, {back} bytes back")?;
        }
    }
    Ok(())
}

pub(crate) fn try_sizes(rt: &HostRuntime) -> anyhow::Result<()> {
    for &n in &SIZES {
        try_size(rt, n)?;
    }
    Ok(())
}
