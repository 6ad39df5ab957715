// Which items a mount refuses: kinds that it has to know and does not, and fields that break a rule.
ghost use Rattle.std.specs.Prelude.{◌≡◌, ◌==◌, if◌then◌else◌, Some, None, nat_eq, nat_le};
ghost use Rattle.flash.specs.declared.refusal.Refusal.TheVariants.{Kind};
ghost use Rattle.nodes.specs.Fields.{all};
ghost use Rattle.nodes.specs.Offences.{either, plain, dots, name_fits, entry_fields, content_fields, entry_offence, content_offence, offence_of, Judged};
ghost use Rattle.nodes.specs.Shown.{entry_shown, content_shown};
ghost use Rattle.nodes.specs.Views.{item_shown};

use crate::item::Item;
use crate::record::{Content, Entry};
use flash::refusal::Refusal;
use kinds::FileKind;

// Whether no byte is 0 or '/'.
fn is_plain(name: &[u8]) -> bool
    ensures { result ≡ plain name.now }
{
    name.iter().all(|b| *b != 0 && *b != b'/')
}

// Whether these are the names that a directory has for itself and for the one above it.
fn is_dots(name: &[u8]) -> bool
    ensures { result ≡ dots name.now }
{
    matches!(name, [b'.'] | [b'.', b'.'])
}

// Whether bytes are a name: 1 to 32 of them, none 0 or '/', and not "." or "..".
pub fn is_name(name: &[u8]) -> bool
    ensures { result ≡ name_fits name.now }
{
    name.len() >= 1 && name.len() <= 32 && is_plain(name) && !is_dots(name)
}

// Whether an entry with this type names something: a file or a directory.
fn is_named(dtype: u8) -> bool
    ensures { result ≡ either (dtype == 8) (dtype == 4) }
{
    dtype == FileKind::File.dtype() || dtype == FileKind::Directory.dtype()
}

// Whether this is the mode of a file or of a directory.
fn is_mode(mode: u32) -> bool
    ensures { result ≡ either (mode == 33188) (mode == 16877) }
{
    mode == FileKind::File.mode() || mode == FileKind::Directory.mode()
}

// Whether the fields of an entry of n bytes are as they have to be.
fn entry_fits(n: usize, e: &Entry<'_>) -> bool
    ensures { result ≡ all (entry_fields n (entry_shown e.now)) }
{
    if n != 40 + e.name.len() || e.pino == 0 || e.version == 0 || !is_name(e.name) {
        return false;
    }
    // a file or a directory has a number, a removal has none
    if e.dtype == 0 {
        e.ino == 0
    } else {
        is_named(e.dtype) && e.ino != 0
    }
}

// Whether the fields of a content of n bytes are as they have to be.
fn content_fits(n: usize, c: &Content<'_>) -> bool
    ensures { result ≡ all (content_fields n (content_shown c.now)) }
{
    if n != 68 + c.payload.len() || c.ino == 0 || c.version == 0 {
        return false;
    }
    if !is_mode(c.mode) || c.payload.len() != data_len(c) || (c.compr != 1 && c.dsize > 512) {
        return false;
    }
    // a file has 65,536 bytes at most, and what is laid in it ends within
    c.isize <= 65536 && (c.dsize == 0 || c.offset as u64 + c.dsize as u64 <= c.isize as u64)
}

// How many bytes of data a content has to have: none for a hole.
fn data_len(c: &Content<'_>) -> usize
    ensures { result ≡ (if nat_eq c.now.compr 1 then 0 else c.now.dsize) }
{
    if c.compr == 1 { 0 } else { c.dsize as usize }
}

// Why a mount refuses an item of a kind that we do not know: the highest bit of the kind says that it has to be known.
fn unknown_offence(kind: u16) -> Option<Refusal>
    ensures { result ≡ (if nat_le 0x8000 kind then Some Kind else None) }
{
    (kind >= 0x8000).then_some(Refusal::Kind)
}

// Why a mount refuses an entry of n bytes, if it does.
#[tactic(auto, unfolding(crate::specs::Offences::entry_offence))]
fn entry_offence(n: usize, e: &Entry<'_>) -> Option<Refusal>
    ensures { result ≡ entry_offence n (entry_shown e.now) }
{
    (!entry_fits(n, e)).then_some(Refusal::Field)
}

// Why a mount refuses a content of n bytes, if it does: its compression has to be known, and its fields have to fit.
#[tactic(auto, unfolding(crate::specs::Offences::content_offence))]
fn content_offence(n: usize, c: &Content<'_>) -> Option<Refusal>
    ensures { result ≡ content_offence n (content_shown c.now) }
{
    if c.compr > 1 {
        return Some(Refusal::Kind);
    }
    (!content_fits(n, c)).then_some(Refusal::Field)
}

impl<'a> Item<'a> {
    // Why a mount refuses the item, if it does.
    #[tactic(auto, using(crate::proofs::Judging::judged))]
    pub fn offence(&self) -> Option<Refusal>
        ensures value { result ≡ offence_of (item_shown self.now) }
        ensures judged { Judged (item_shown self.now) result }
    {
        match self {
            Item::Zero => None,
            Item::Marker { .. } => None,
            Item::Padding { .. } => None,
            Item::Unknown { kind, .. } => unknown_offence(*kind),
            Item::Entry { bytes, entry } => entry_offence(bytes.len(), entry),
            Item::Content { bytes, content } => content_offence(bytes.len(), content),
        }
    }
}
