// Walks the block of a case, and prints what the walk met.
use crate::case::Case;
use crate::image::BLOCK;
use nodes::image::Image;
use nodes::reader::Reader;
use trials::digest::digest_of;
use trials::met::Met;

// Walks a block of which all can be read to its end.
pub(crate) fn tally(bytes: &[u8]) -> Met {
    let image = Image {
        bytes,
        readable: &[true; BLOCK / 4],
    };
    Reader::new(0, image).fold(Met::default(), |met, found| met.with(&found))
}

// Tries a case, and prints a digest of its block, as the model has to speak of the same bytes, and what the walk met.
fn try_case(rt: &HostRuntime, case: &Case<'_>) -> anyhow::Result<()> {
    let Case(label, ..) = case;
    let block = case.image(rt.alloc())?;
    let digest: u32 = digest_of(&block);
    let met = tally(&block);
    let Met { items, last, .. } = met;
    let offence = met.offence_number();
    println!(rt; "{label}: block {digest:08x}, items {items}, last at {last}, offence {offence}")?;
    Ok(())
}

// Tries each case of a table.
pub(crate) fn try_cases(rt: &HostRuntime, title: &str, cases: &[Case<'_>]) -> anyhow::Result<()> {
    println!(rt; "{title}")?;
    for case in cases {
        try_case(rt, case)?;
    }
    Ok(())
}
