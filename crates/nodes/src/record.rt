// The fields of the two kinds of node, as read from the flash or as wanted there. What the rules do not name is left out. The
// type, the mode and the compression stay numbers: each that can stand on a flash is kept, so that a mount can refuse it.

// A name in a directory (JFFS2's dirent): `ino` is the number that it names. A removal has `ino` and `dtype` 0.
#[derive(Clone, Copy)]
pub struct Entry<'a> {
    pub pino: u32,
    pub version: u32,
    pub ino: u32,
    pub dtype: u8,
    pub name: &'a [u8],
}

// The length of a file, and a run of its bytes (JFFS2's inode node): `dsize` bytes at `offset`, given by the payload, or
// zeros where `compr` is 1, a hole.
#[derive(Clone, Copy)]
pub struct Content<'a> {
    pub ino: u32,
    pub version: u32,
    pub mode: u32,
    pub isize: u32,
    pub offset: u32,
    pub dsize: u32,
    pub compr: u8,
    pub payload: &'a [u8],
}
