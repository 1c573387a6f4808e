//! White space and comments at the front of a text.
ghost use Rattle.std.specs.Prelude.{◌≡◌, ◌≤◌, length};
ghost use Rattle.yt_lexer.specs.First.{is_blank, is_in_comment, blank_len};

/// How many bytes of white space and comments stand in front.
pub(crate) fn blank_len(text: &[u8]) -> usize
    ensures value { result ≡ blank_len text.now }
    ensures bound { result ≤ length text.now }
{
    let mut comment = false;
    let mut n = 0;
    while n < text.len() && is_blank(comment, text[n]) {
        comment = is_in_comment(comment, text[n]);
        n += 1;
    }
    n
}

/// Whether a byte is white space or of a comment, which may have begun before.
fn is_blank(comment: bool, b: u8) -> bool
    ensures { result ≡ is_blank comment b }
{
    comment || matches!(b, b' ' | b'\t' | b'\r' | b'\n' | b'#')
}

/// Whether a comment goes on behind a byte.
fn is_in_comment(comment: bool, b: u8) -> bool
    ensures { result ≡ is_in_comment comment b }
{
    b != b'\n' && (comment || b == b'#')
}
