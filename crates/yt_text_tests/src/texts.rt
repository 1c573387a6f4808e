//! Texts that several tests use.
ghost use Rattle.std.specs.Prelude.{◌≤◌, length};

/// The front of a text: all of it where it isn't long.
pub(crate) fn front(text: &str) -> &[u8]
    ensures { length result.now ≤ 1000 }
{
    let bytes = text.as_bytes();
    &bytes[..bytes.len().min(1000)]
}
