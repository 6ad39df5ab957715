// One block of a card: what can be done with it, each step printed with its answer. The methods that `bench` has too stay
// with it: a function that is public has a contract, and none can say what is printed.
use crate::show::Shown;
use bench_parts::log::Log;
use bench_parts::show::{Answer, Mark};
use encode::filler::{filling, marker};
use encode::node::{Node, encode};
use flash::interface::Flash;
use flash::place::Place;
use flash::refusal::Refusal;
use nodes::image::Image;
use nodes::reader::Reader;
use std::io;
use survey::read_block;

// The block that is worked on, and its bytes.
const WORK: usize = 2;

const BLOCK: usize = 4096;

// A card, and what was asked for on the block. In `bytes` items are made, and the block is read into them; `readable` has a
// flag for each page of 4 bytes, set if it could be read. After something could not be printed or noted, `failed` is set, and
// the task goes on.
#[derive(Drop)]
pub(crate) struct Task<'a, F> {
    rt: &'a HostRuntime,
    card: F,
    log: Log,
    failed: bool,
    bytes: [u8; BLOCK],
    readable: [bool; BLOCK / 4],
}

impl<'a, F: Flash + Drop> Task<'a, F> {
    pub(crate) fn new(rt: &'a HostRuntime, card: F) -> Task<'a, F> {
        Task {
            rt,
            card,
            log: Log::new(rt.alloc()),
            failed: false,
            bytes: [0; BLOCK],
            readable: [true; BLOCK / 4],
        }
    }

    // Whether all was printed and noted.
    pub(crate) fn ends(self) -> io::Result<()> {
        if self.failed {
            return Err(io::ErrorKind::Other.into());
        }
        Ok(())
    }

    // Keeps whether something was printed.
    fn keep(&mut self, printed: io::Result<()>) {
        self.failed |= printed.is_err();
    }

    // Begins under a title, on a block of which nothing is asked yet. The log keeps its memory for what is noted now.
    pub(crate) fn begin(&mut self, title: &str) {
        self.log.asked.clear();
        self.log.end = 0;
        let shape = Shown(self.card.shape());
        self.keep(println!(self.rt; "{title}: {shape}"));
    }

    // Programs what was made, at the log's end. If that is accepted the end moves behind it, also where it could not be noted.
    fn lay(&mut self, what: &'static str, made: Option<usize>) {
        let Some(bytes) = made.and_then(|n| self.bytes.get(..n)) else {
            let answer = Answer(Err(Refusal::Buffer));
            return self.keep(println!(self.rt; "{what}: {answer}"));
        };
        let n = bytes.len();
        let offset = self.log.end;
        let place = Place {
            block: WORK,
            offset,
        };
        let answer = self.card.program(place, bytes);
        let shown = Answer(answer);
        self.keep(println!(self.rt;
            "program at block {WORK}, offset {offset}, length {n} ({what}): {shown}"
        ));
        self.failed |= self.log.note(what, n, answer).is_err();
        if answer.is_ok() {
            self.log.end = offset.saturating_add(n);
        }
    }

    pub(crate) fn lay_marker(&mut self) {
        let made = marker(&mut self.bytes);
        self.lay("marker", made);
    }

    pub(crate) fn lay_node<const WORDS: usize, const MOST: usize, N: Node<WORDS, MOST>>(
        &mut self,
        what: &'static str,
        node: &N,
    ) {
        let made = encode(node, &mut self.bytes);
        self.lay(what, made);
    }

    // Fills the batch that the last item ends in, if it is not full, so that all of it settles.
    pub(crate) fn sync(&mut self) {
        match filling(&mut self.bytes, self.log.end, self.card.shape().batch) {
            Some(0) => self.keep(println!(self.rt; "sync: nothing to fill")),
            made => self.lay("filling", made),
        }
    }

    pub(crate) fn erase(&mut self) {
        let answer = Answer(self.card.erase(WORK));
        self.keep(println!(self.rt; "erase block {WORK}: {answer}"));
    }

    pub(crate) fn arm(&mut self, what: &str, steps: usize, fault: u8) {
        let answer = Answer(self.card.arm(steps, fault));
        self.keep(println!(self.rt; "{what}: {answer}"));
    }

    pub(crate) fn mark(&mut self) {
        let mark = Mark(self.card.mark(WORK));
        self.keep(println!(self.rt; "mark of block {WORK}: {mark}"));
    }

    pub(crate) fn restart(&mut self) {
        self.card.restart();
        self.keep(println!(self.rt; "restart: done"));
    }

    // Reads the block, and prints how much of it cannot be read, if any.
    fn read(&mut self) {
        let answer = Answer(read_block(&self.card, WORK, &mut self.bytes, &mut self.readable));
        self.keep(println!(self.rt; "read block {WORK}: {answer}"));
        match self.readable.iter().filter(|readable| !**readable).count() {
            0 => (),
            lost => self.keep(println!(self.rt; "  words that cannot be read: {lost}")),
        }
    }

    // Prints each item of the block with its place, and answers how far into the block they begin.
    fn show_items(&self, image: Image<'_>) -> io::Result<usize> {
        let mut reached: usize = 0;
        for found in Reader::new(WORK, image) {
            let Place { block, offset } = found.place;
            let item = Shown(found.item);
            println!(self.rt; "  block {block}, offset {offset}: {item}")?;
            reached = offset.saturating_add(1);
        }
        Ok(reached)
    }

    // Prints what stands on the block, as it was read, and what was asked for and does not stand.
    fn show(&self) -> io::Result<()> {
        let reached = self.show_items(Image {
            bytes: &self.bytes,
            readable: &self.readable,
        })?;
        let asked = self.log.asked.iter();
        for lost in asked.filter(|asked| asked.offset >= reached) {
            let what = lost.what;
            let offset = lost.offset;
            println!(self.rt; "  lost: {what}, asked for at block {WORK}, offset {offset}")?;
        }
        Ok(())
    }

    // Reads the block, and prints what is on it; where a line of that cannot be printed, those behind it are left out.
    pub(crate) fn survey(&mut self) {
        self.read();
        self.keep(self.show());
    }
}
