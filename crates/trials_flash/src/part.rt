// A part of the script: the flash that its first line puts together, and the calls of the others.
use crate::answer::{Answer, Values};
use crate::ask::ask;
use crate::command::{Card, Command, fill, parse};
use devices::nand::Nand;
use devices::nor::Nor;
use devices::pages::NandPage;
use flash::interface::Flash;
use layers::buffer::WriteBuffer;
use std::io;

// The most bytes of memory.
const MOST: usize = 131072;

#[derive(Clone, Copy)]
pub(crate) struct Part<'a> {
    pub(crate) rt: &'a HostRuntime,
    pub(crate) text: &'a str,
}

impl Part<'_> {
    // Prints what is answered where there is no flash to call.
    fn say(self, answer: Answer) -> io::Result<()> {
        let text = self.text;
        println!(self.rt; "{text}: {answer}")
    }

    // Makes the calls, and prints each line with its answer; of a quiet part only a number for all answers.
    fn call<F: Flash>(self, flash: &mut F) -> io::Result<()> {
        let quiet = self.text.ends_with("quiet");
        let mut all = 1;
        for line in self.text.lines() {
            let answer = match parse(line) {
                Some(command) => ask(flash, command),
                None => Answer::NotUnderstood,
            };
            all = answer.taken_into(all);
            if !quiet {
                println!(self.rt; "{line}: {answer}")?;
            }
        }
        if quiet {
            let answer = Answer::Done(Values::Number(all));
            println!(self.rt; "all: {answer}")?;
        }
        Ok(())
    }

    // Tries a write buffer over a flash.
    fn on_pile<F: Flash + Drop>(self, below: F) -> io::Result<()> {
        match WriteBuffer::new(below) {
            Ok(mut pile) => self.call(&mut pile),
            Err((refusal, back)) => {
                self.say(Answer::Refused(refusal, Values::Shape(back.shape())))
            }
        }
    }

    // Tries a chip, or a write buffer over it.
    fn on_chip<F: Flash + Drop>(self, mut chip: F, buffered: bool) -> io::Result<()> {
        if buffered {
            return self.on_pile(chip);
        }
        self.call(&mut chip)
    }

    // One function over what either `new` answers was tried, and has no proof: a chip of any type beside memory that is handed
    // back.
    fn on_nor(self, memory: &mut [u8], buffered: bool) -> io::Result<()> {
        match Nor::new(memory) {
            Ok(chip) => self.on_chip(chip, buffered),
            Err((refusal, back)) => self.say(Answer::Refused(refusal, Values::of_bytes(back))),
        }
    }

    fn on_nand(self, memory: &mut [u8], page: NandPage, buffered: bool) -> io::Result<()> {
        match Nand::new(memory, page) {
            Ok(chip) => self.on_chip(chip, buffered),
            Err((refusal, back)) => self.say(Answer::Refused(refusal, Values::of_bytes(back))),
        }
    }

    // Tries the chip of a card in its memory.
    fn on_card(self, card: Card, memory: &mut [u8]) -> io::Result<()> {
        match card.page {
            4 => self.on_nor(memory, card.buffered),
            512 => self.on_nand(memory, NandPage::P512, card.buffered),
            528 => self.on_nand(memory, NandPage::P528, card.buffered),
            _ => self.say(Answer::NotUnderstood),
        }
    }

    // Tries the flash that the first line asks for.
    pub(crate) fn run(self) -> io::Result<()> {
        let first = self.text.lines().next().unwrap_or("");
        let Some(Command::Card(card)) = parse(first) else {
            return self.say(Answer::NotUnderstood);
        };
        let mut room = [0; MOST];
        match (room.get_mut(..card.bytes), u8::try_from(card.bits)) {
            (Some(memory), Ok(bits)) => {
                fill(memory, bits);
                self.on_card(card, memory)
            }
            _ => self.say(Answer::NotUnderstood),
        }
    }
}
