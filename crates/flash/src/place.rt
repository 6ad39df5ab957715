// Where things lie on a flash, and how large it is.
ghost use Rattle.std.specs.Prelude.{◌≡◌, nat_eq};

// A block and an offset in it, always answered together.
#[derive(Clone, Copy, Debug, PartialEq, Eq)]
pub struct Place {
    pub block: usize,
    pub offset: usize,
}

// So many blocks of `size` bytes; pages of `page` bytes are programmed, and batches of `batch` bytes settle.
#[derive(Clone, Copy, Debug, PartialEq, Eq)]
pub struct Shape {
    pub blocks: usize,
    pub size: usize,
    pub page: usize,
    pub batch: usize,
}

impl Shape {
    // Whether a page is a batch, so that what is programmed settles at once.
    pub fn settles_at_once(self) -> bool
        ensures { result ≡ nat_eq self.page self.batch }
    {
        self.page == self.batch
    }
}
