//! Bytes that are no plain text, written as `\xHH`.

use std::alloc::{AllocError, Global};

/// How much of an escape was read.
#[derive(Clone, Copy)]
enum Escape {
    None,
    Backslash,
    Mark,
    Digit(u8),
}

/// The bytes that were read so far, and the escape that is being read.
#[derive(Drop)]
struct Reader {
    bytes: Vec<u8>,
    escape: Escape,
}

/// The number that a hexadecimal digit stands for.
fn digit(byte: u8) -> u8 {
    match byte {
        b'0'..=b'9' => byte.wrapping_sub(b'0'),
        b'a'..=b'f' => byte.wrapping_sub(b'a').wrapping_add(10),
        _ => 0,
    }
}

impl Reader {
    fn push(&mut self, byte: u8) -> Result<Escape, AllocError> {
        self.bytes.push(byte)?;
        Ok(Escape::None)
    }

    /// What comes after a backslash, which may begin an escape.
    fn after_backslash(&mut self, byte: u8) -> Result<Escape, AllocError> {
        if byte == b'x' {
            return Ok(Escape::Mark);
        }
        self.bytes.push(b'\\')?;
        self.plain(byte)
    }

    /// What comes outside of an escape.
    fn plain(&mut self, byte: u8) -> Result<Escape, AllocError> {
        if byte == b'\\' {
            Ok(Escape::Backslash)
        } else {
            self.push(byte)
        }
    }

    fn take(&mut self, byte: u8) -> Result<(), AllocError> {
        self.escape = match self.escape {
            Escape::None => self.plain(byte)?,
            Escape::Backslash => self.after_backslash(byte)?,
            Escape::Mark => Escape::Digit(digit(byte)),
            Escape::Digit(high) => { self.push(high.wrapping_mul(16).wrapping_add(digit(byte)))? }
        };
        Ok(())
    }
}

/// The bytes of a text in which `\xHH` stands for one byte.
pub fn unescaped(alloc: Global, text: &str) -> Result<Vec<u8>, AllocError> {
    let mut reader = Reader {
        bytes: Vec::new(alloc),
        escape: Escape::None,
    };
    for byte in text.bytes() {
        reader.take(byte)?;
    }
    let Reader { bytes, .. } = reader;
    Ok(bytes)
}

/// Puts a byte at the end of a text, as `\xHH` where it is no printable one.
pub fn push_byte(out: &mut String, byte: u8) -> Result<(), AllocError> {
    if byte.is_ascii_graphic() || byte == b' ' {
        out.push(char::from(byte))
    } else {
        write!(out, "\\x{byte:02x}")
    }
}

/// Puts bytes at the end of a text.
pub fn push_bytes(out: &mut String, bytes: &[u8]) -> Result<(), AllocError> {
    for byte in bytes {
        push_byte(out, *byte)?;
    }
    Ok(())
}
