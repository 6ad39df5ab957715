// The values that stand for kinds on the flash: of the items that we know, and of what an entry can name.
#![tactic(auto)]

ghost use Rattle.std.specs.Prelude.{◌≡◌, ◌++◌, codes, Some};
ghost use Rattle.std.specs.Fmt.{decimal};
ghost use Rattle.kinds.specs.Kinds.{kind_value, dtype_of, mode_of, IsKindOf};

use std::error::Error;
use std::fmt;

// The kind of an item; its value stands in the header.
#[derive(Clone, Copy, Debug, PartialEq, Eq)]
pub enum Kind {
    Marker = 0x2003,
    Padding = 0x2004,
    Entry = 0xe001,
    Content = 0xe002,
}

// A value that is of no kind that we know.
#[derive(Clone, Copy, Debug, PartialEq, Eq)]
pub struct UnknownKind(pub u16);

impl From<Kind> for u16 {
    ghost from_gives = { λ kind value. value ≡ kind_value kind };

    fn from(kind: Kind) -> u16 {
        kind as u16
    }
}

impl TryFrom<u16> for Kind {
    type Error = UnknownKind;

    ghost try_from_gives = { IsKindOf };

    fn try_from(value: u16) -> Result<Kind, UnknownKind> {
        match value {
            0x2003 => Ok(Kind::Marker),
            0x2004 => Ok(Kind::Padding),
            0xe001 => Ok(Kind::Entry),
            0xe002 => Ok(Kind::Content),
            _ => Err(UnknownKind(value)),
        }
    }
}

impl fmt::Display for UnknownKind {
    ghost output = { λ e. Some (codes "no item has kind " ++ decimal e.0) };

    fn fmt<W: fmt::Write>(&self, f: &mut fmt::Formatter<W>) -> fmt::Result {
        write!(f, "no item has kind {}", self.0)
    }
}

impl Error for UnknownKind {}

// What an entry can name, with its type in an entry. It has two numbers, so neither is a conversion: `dtype` and `mode`
// say which is meant.
#[derive(Clone, Copy, Debug, PartialEq, Eq)]
pub enum FileKind {
    File = 8,
    Directory = 4,
}

impl FileKind {
    // The type in an entry.
    pub fn dtype(self) -> u8
        ensures { result ≡ dtype_of self }
    {
        self as u8
    }

    // The mode in a content: a regular file that its owner writes and all read, or a directory that all read and enter.
    pub fn mode(self) -> u32
        ensures { result ≡ mode_of self }
    {
        match self {
            FileKind::File => 33188,
            FileKind::Directory => 16877,
        }
    }
}
