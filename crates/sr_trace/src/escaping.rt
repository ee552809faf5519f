ghost use Rattle.std.specs.Prelude.{◌≡◌, ◌++◌, OnOk};
ghost use Rattle.sr_trace.specs.Drawing.{escaped, escaped_byte};

use sr_value::{NoMemory, Text};

/// Adds bytes, with the names of signs that have a meaning in a picture.
pub(crate) fn push_escaped(text: &mut Text, bytes: &[u8]) -> Result<(), NoMemory>
    ensures { OnOk result (text.new ≡ text.old ++ escaped bytes.now) }
{
    for byte in bytes {
        push_escaped_byte(text, *byte)?;
    }
    Ok(())
}

fn push_escaped_byte(text: &mut Text, byte: u8) -> Result<(), NoMemory>
    ensures { OnOk result (text.new ≡ text.old ++ escaped_byte byte) }
{
    if byte == b'&' {
        text.push_all(b"&amp;")
    } else if byte == b'<' {
        text.push_all(b"&lt;")
    } else if byte == b'>' {
        text.push_all(b"&gt;")
    } else {
        text.push(byte)
    }
}
