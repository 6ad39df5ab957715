// Tries what fills a block from its end up to the end of a batch.
use encode::filler::filling;
use trials::digest::digest_of;

// The end, the batch and the room.
static FILLINGS: [(usize, usize, usize); 16] = [
    (500, 512, 600),
    (504, 512, 600),
    (508, 512, 600),
    (512, 512, 600),
    (0, 512, 600),
    (516, 512, 600),
    (500, 512, 12),
    (500, 512, 11),
    (504, 512, 7),
    (512, 512, 0),
    (496, 512, 600),
    (500, 528, 600),
    (528, 528, 600),
    (500, 4, 600),
    (498, 512, 600),
    (500, 0, 600),
];

// What was made, and a digest of the room.
fn show(rt: &HostRuntime, end: usize, batch: usize, room: usize) -> anyhow::Result<()> {
    let mut out = vec![in rt.alloc(); 0xff; room]?;
    let n = filling(&mut out, end, batch);
    let all: u32 = digest_of(&out);
    println!(rt; "end {end}, batch {batch}, room {room}: {n:?}, digest {all:08x}")?;
    Ok(())
}

pub(crate) fn try_fillings(rt: &HostRuntime) -> anyhow::Result<()> {
    println!(rt; "fillings")?;
    for &(end, batch, room) in &FILLINGS {
        show(rt, end, batch, room)?;
    }
    Ok(())
}
