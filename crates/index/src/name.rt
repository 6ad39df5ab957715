// Names kept inline.
ghost use Rattle.std.specs.Prelude.{◌≡◌, ◌≤◌};

use std::error::Error;
use std::fmt;

// A name of at most 32 bytes: the first `len` of them. The bytes are inline and not in a Vec, so that a record is Copy and a
// store allocates nothing once it is set up.
#[derive(Clone, Copy)]
pub struct Name {
    bytes: [u8; 32],
    len: usize,
    ghost within: { len ≤ 32 },
}

// A name is longer than 32 bytes.
#[derive(Clone, Copy, Debug, PartialEq, Eq)]
pub struct NameTooLong;

impl TryFrom<&[u8]> for Name {
    type Error = NameTooLong;

    ghost use Rattle.index.specs.Shown.{IsNameOf};

    ghost try_from_gives = { λ name r. IsNameOf name.now r };

    fn try_from(name: &[u8]) -> Result<Name, NameTooLong> {
        let len = name.len();
        if len > 32 {
            return Err(NameTooLong);
        }
        let mut bytes = [0; 32];
        bytes[0..len].copy_from_slice(name);
        Ok(Name { bytes, len })
    }
}

impl fmt::Display for NameTooLong {
    ghost use Rattle.std.specs.Prelude.{Some, codes};

    ghost output = { λ _. Some (codes "a name of more than 32 bytes") };

    fn fmt<W: fmt::Write>(&self, f: &mut fmt::Formatter<W>) -> fmt::Result {
        f.write_str("a name of more than 32 bytes")
    }
}

impl Error for NameTooLong {}

impl Name {
    ghost use Rattle.index.specs.Shown.{name_shown};

    pub fn as_slice(&self) -> &[u8]
        ensures { result.now ≡ name_shown self.now }
    {
        &self.bytes[0..self.len]
    }
}
