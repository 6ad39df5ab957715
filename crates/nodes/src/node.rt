// The two kinds of node, read from all their bytes. A node passes if its fields and its name or data lie within it and
// their sums are right. Two readers, as each field and both sums stand at other offsets.
ghost use Rattle.std.specs.Prelude.{◌≡◌, length};
ghost use Rattle.nodes.specs.Items.{totlen};
ghost use Rattle.nodes.specs.Passing.{entry_in, content_in, entry_read, content_read};

use crate::bytes::le_u32;
use crate::record::{Content, Entry};

// The entry of which these are the bytes, if it passes.
#[tactic(auto, unfolding(crate::specs::Records::read_entry))]
pub(crate) fn read_entry(node: &[u8]) -> Option<Entry<'_>>
    requires { length node.now ≡ totlen node.now }
    ensures { entry_read result ≡ entry_in node.now }
{
    let behind = node.get(40..)?;
    let name = behind.get(..node[28] as usize)?;
    if le_u32(node, 32) != crc32::sum_of(&node[0..32]) || le_u32(node, 36) != crc32::sum_of(name) {
        return None;
    }
    Some(Entry {
        pino: le_u32(node, 12),
        version: le_u32(node, 16),
        ino: le_u32(node, 20),
        dtype: node[29],
        name,
    })
}

// The content of which these are the bytes, if it passes.
#[tactic(auto, unfolding(crate::specs::Records::read_content))]
pub(crate) fn read_content(node: &[u8]) -> Option<Content<'_>>
    requires { length node.now ≡ totlen node.now }
    ensures { content_read result ≡ content_in node.now }
{
    let behind = node.get(68..)?;
    let payload = behind.get(..le_u32(node, 48) as usize)?;
    if le_u32(node, 60) != crc32::sum_of(payload)
        || le_u32(node, 64) != crc32::sum_of(&node[0..60])
    {
        return None;
    }
    Some(Content {
        ino: le_u32(node, 12),
        version: le_u32(node, 16),
        mode: le_u32(node, 20),
        isize: le_u32(node, 28),
        offset: le_u32(node, 44),
        dsize: le_u32(node, 52),
        compr: node[56],
        payload,
    })
}
