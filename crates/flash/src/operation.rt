// What changes a flash, as data.
use crate::place::Place;

#[derive(Clone, Copy, Debug, PartialEq, Eq)]
pub enum Operation<'a> {
    Program { at: Place, bytes: &'a [u8] },
    Erase { block: usize },
}
