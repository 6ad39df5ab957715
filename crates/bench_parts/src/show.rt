// How an answer and bytes are shown.
ghost use Rattle.std.specs.Prelude.{◌≡◌, codes, Some};
ghost use Rattle.std.specs.Str.{IsUtf8};
ghost use Rattle.bench_parts.specs.Words.{answer_words, mark_words};

use flash::refusal::Refusal;
use std::fmt;

// Bytes as text, where they are text.
pub fn text(bytes: &[u8]) -> &str
    ensures valid { IsUtf8 bytes.now → result.now ≡ bytes.now }
    ensures other { (IsUtf8 bytes.now → ⊥) → result.now ≡ codes "(no text)" }
{
    std::str::from_utf8(bytes).unwrap_or("(no text)")
}

// What a call answered.
#[derive(Clone, Copy)]
pub struct Answer(pub Result<(), Refusal>);

impl fmt::Display for Answer {
    ghost output = { λ answer. Some (answer_words answer.0) };

    fn fmt<W: fmt::Write>(&self, f: &mut fmt::Formatter<W>) -> fmt::Result {
        match self.0 {
            Ok(()) => write!(f, "done"),
            Err(refusal) => {
                let number = u8::from(refusal);
                write!(f, "refused as {number}, {refusal}")
            }
        }
    }
}

// Where the next program of a block may begin.
#[derive(Clone, Copy)]
pub struct Mark(pub Result<usize, Refusal>);

impl fmt::Display for Mark {
    ghost output = { λ mark. Some (mark_words mark.0) };

    fn fmt<W: fmt::Write>(&self, f: &mut fmt::Formatter<W>) -> fmt::Result {
        match self.0 {
            Ok(offset) => write!(f, "offset {offset}"),
            Err(refusal) => Answer(Err(refusal)).fmt(f),
        }
    }
}
