// A run of bytes of a file.
use crate::record::ContentRecord;

// Up to `end` the bytes are given by this content, or by none and are zeros.
#[derive(Clone, Copy)]
pub struct Run {
    pub content: Option<ContentRecord>,
    pub end: u32,
}
