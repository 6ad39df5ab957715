// The task: what is done with one block of a card, and printed of it.
use crate::show::Shown;
use anyhow::Context;
use bench_parts::log::Log;
use bench_parts::pieces::{ROOT, TOP, TRACK, content, entry};
use bench_parts::show::{Answer, Mark};
use encode::filler::marker;
use encode::node::{Node, encode};
use flash::interface::Flash;
use flash::place::Place;
use kinds::FileKind;
use nodes::image::Image;
use nodes::reader::Reader;

pub(crate) const BLOCK: usize = 4096;

// The block that the task works on.
const WORK: usize = 2;

// A card, and what was asked for on the block. `run` is the buffer that items are made in.
#[derive(Drop)]
struct Task<'a, F> {
    rt: &'a HostRuntime,
    card: F,
    log: Log,
    run: [u8; 1024],
}

impl<F: Flash + Drop> Task<'_, F> {
    // Programs the n bytes of the run at the log's end; the log goes on behind them where that was accepted.
    fn lay(&mut self, what: &'static str, n: usize) -> anyhow::Result<()> {
        let bytes = self.run.get(..n).context("an item longer than the run")?;
        let offset = self.log.end;
        let place = Place {
            block: WORK,
            offset,
        };
        // what was asked is printed first: there may be no memory to note it
        print!(self.rt; "program {n} bytes at block {WORK}, offset {offset} ({what}): ")?;
        let answer = self.card.program(place, bytes);
        self.log.note(what, n, answer)?;
        let answer = Answer(answer);
        println!(self.rt; "{answer}")?;
        Ok(())
    }

    fn lay_marker(&mut self) -> anyhow::Result<()> {
        let n = marker(&mut self.run).context("no room for the marker")?;
        self.lay("marker", n)
    }

    fn lay_node<const WORDS: usize, const MOST: usize, N: Node<WORDS, MOST>>(
        &mut self,
        what: &'static str,
        node: &N,
    ) -> anyhow::Result<()> {
        let n = encode(node, &mut self.run).context("a node that cannot be laid")?;
        self.lay(what, n)
    }

    fn erase(&mut self) -> anyhow::Result<()> {
        let answer = Answer(self.card.erase(WORK));
        println!(self.rt; "erase block {WORK}: {answer}")?;
        Ok(())
    }

    fn mark(&self) -> anyhow::Result<()> {
        let mark = Mark(self.card.mark(WORK));
        println!(self.rt; "mark of block {WORK}: {mark}")?;
        Ok(())
    }

    // A directory, a file in it, and what the file holds.
    fn fill(&mut self) -> anyhow::Result<()> {
        let dir = FileKind::Directory;
        let file = FileKind::File;
        self.lay_node("directory 2", &content(TOP, 1, dir, 0, b""))?;
        self.lay_node("its name, /top", &entry(ROOT, TOP, dir, b"top"))?;
        self.lay_node("file 3", &content(TRACK, 1, file, 0, b""))?;
        let name = entry(TOP, TRACK, file, b"track-7");
        self.lay_node("its name, /top/track-7", &name)?;
        let text = b"net GND 100,200 to 100,900\n";
        self.lay_node("27 bytes of it", &content(TRACK, 2, file, 0, text))
    }

    // Cuts the power in the middle of the next content, and restarts.
    fn cut(&mut self) -> anyhow::Result<()> {
        let answer = Answer(self.card.arm(9, 0x10));
        println!(self.rt; "arm: 9 more words succeed, the next fails with fault 0x10: {answer}")?;
        let more = b"net VCC 300,200 to 300,900\n";
        let content = content(TRACK, 3, FileKind::File, 27, more);
        self.lay_node("27 bytes more", &content)?;
        self.erase()?;
        self.mark()?;
        self.card.restart();
        println!(self.rt; "restart: done")?;
        self.mark()
    }

    // Prints each item of the block with its place, and answers how far into the block they begin.
    fn show_items(&self, image: Image<'_>) -> anyhow::Result<usize> {
        let mut reached: usize = 0;
        for found in Reader::new(WORK, image) {
            let Place { block, offset } = found.place;
            let item = Shown(found.item);
            println!(self.rt; "  block {block}, offset {offset}: {item}")?;
            reached = offset.saturating_add(1);
        }
        Ok(reached)
    }

    // Reads the block and prints what stands on it; then what was asked for and does not stand.
    fn survey(&self) -> anyhow::Result<()> {
        let mut bytes = [0; BLOCK];
        let start = Place {
            block: WORK,
            offset: 0,
        };
        let answer = Answer(self.card.read(start, &mut bytes));
        println!(self.rt; "read block {WORK}: {answer}")?;
        let reached = self.show_items(Image {
            bytes: &bytes,
            readable: &[true; BLOCK / 4],
        })?;
        let asked = self.log.asked.iter();
        for lost in asked.filter(|asked| asked.offset >= reached) {
            let offset = lost.offset;
            let what = lost.what;
            println!(self.rt;
                "  lost: {what}, which were to stand at block {WORK}, offset {offset}"
            )?;
        }
        Ok(())
    }
}

// The whole task on any flash.
pub(crate) fn perform<F: Flash + Drop>(rt: &HostRuntime, card: F) -> anyhow::Result<()> {
    let mut task = Task {
        rt,
        card,
        log: Log::new(rt.alloc()),
        run: [0; 1024],
    };
    task.erase()?;
    task.lay_marker()?;
    task.fill()?;
    task.survey()?;
    task.cut()?;
    task.survey()
}
