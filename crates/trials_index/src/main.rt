// Tries the index by a script, which it reads from standard input, and prints each line of it with its answer. The model makes
// the script and what has to be printed; it knows nothing of this code.
//
// A script is a row of parts, with '#' between them. A part begins with a table without blocks. Lines that change it:
//
//     block                         one more block, bare and without records
//     state BLOCK NUMBER END        1 spent, 2 bare, 3 open with an end, 4 full
//     entry BLOCK OFFSET PINO VERSION INO TYPE NAME
//     content BLOCK OFFSET INO VERSION MODE ISIZE FROM DSIZE HOLE
//     find                          finds the blocks that can be done without
//
// and questions, of which each answers a word and numbers:
//
//     of PINO NAME                  the entry of a name that counts: its block, offset, version, number and type
//     next PINO NAME                likewise that of the smallest name above one
//     names PINO                    how many names a directory has
//     length INO
//     run INO AT LIMIT              the content that gives the byte AT, by its block and offset, and up to where: the lowest of
//                                   LIMIT, its end, and the first place behind AT at which a content of the number begins
//     version NUMBER                the highest of a number, in either kind
//     number                        the highest in any field
//     missed                        a 1, and a bit for each record: whether it would be missed without its block
//     states                        the number of each block's state, as a digit
//
// Numbers are of 32 bits, and a word that is such a number is no NAME. Of twins the one at the lowest place is answered. A part
// that ends in `quiet` prints nothing but one number for its answers.
#![tactic(auto)]

mod answer;
mod command;
mod table;

use answer::Answer;
use command::parse;
use std::io;
use table::Table;

// What a line answers.
fn answer_of(table: &mut Table, line: &str) -> Answer {
    match parse(line) {
        Some(command) => table.answer(command),
        None => Answer::NotUnderstood,
    }
}

// Tries a part, and prints each line with its answer; of a quiet part only a number for all answers.
fn try_part(rt: &HostRuntime, part: &str) -> io::Result<()> {
    let quiet = part.ends_with("quiet");
    let mut table = Table::new(rt.alloc());
    let mut all = 1;
    for line in part.lines() {
        let answer = answer_of(&mut table, line);
        all = answer.taken_into(all);
        if !quiet {
            println!(rt; "{line}: {answer}")?;
        }
    }
    if quiet {
        let answer = Answer::Is(all);
        println!(rt; "all: {answer}")?;
    }
    Ok(())
}

// As in the other programs that read a script: what is printed can stand in no contract, and so in no function that they share.
fn main(rt: HostRuntime) -> io::Result<()> {
    let script = io::read_to_string(rt.alloc(), rt.stdin())?;
    for part in script.split('#') {
        try_part(&rt, part.trim())?;
    }
    Ok(())
}
