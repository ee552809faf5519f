ghost use Rattle.std.specs.Prelude.{◌≡◌, ◌==◌, ◌^◌, ◌<◌, ◌||◌, length};
ghost use Rattle.sr_lexer.specs.Bytes.{is_blank};
ghost use Rattle.sr_lexer.specs.Pieces.{close_of};
ghost use Rattle.sr_fmt.specs.Gaps.{closed_gap, gap_at};

use sr_lexer::{close_in, len_of_line};

/// A blank, a newline or a comment.
#[derive(Clone, Copy)]
pub(crate) struct Gap {
    pub is_comment: bool,
    /// How many bytes it has.
    pub len: usize,
}

/// The blank, newline or comment at the front of the bytes, if one stands there.
pub(crate) fn gap_in_front(rest: &[u8]) -> Option<Gap>
    requires { 0 < length rest.now }
    ensures { result ≡ gap_at rest.now }
{
    let first = rest[0];
    if is_space(first) {
        Some(Gap {
            is_comment: false,
            len: 1,
        })
    } else if first == b'#' {
        Some(Gap {
            is_comment: true,
            len: len_of_line(&rest[1..]) + 1,
        })
    } else if rest.starts_with(b"/*") {
        block_comment_with(&rest[2..])
    } else {
        None
    }
}

/// Whether it is a blank or a newline.
fn is_space(byte: u8) -> bool
    ensures { result ≡ (is_blank byte || byte == 10) }
{
    byte == b'\t' || byte == b'\r' || byte == b' ' || byte == b'\n'
}

/// The comment that goes on with these bytes after `/*`, up to the next `*/`.
fn block_comment_with(inner: &[u8]) -> Option<Gap>
    requires { length inner.now < 2 ^ 63 }
    ensures { result ≡ closed_gap (close_of inner.now) }
{
    close_in(inner).map(|at| Gap {
        is_comment: true,
        len: at + 4,
    })
}
