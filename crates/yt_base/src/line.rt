//! A text of at most 256 bytes.
ghost use Rattle.std.specs.Prelude.{◌≡◌, ◌+◌, ◌≤◌, [], ◌++◌, List, ℕ, length, decimal};
ghost use Rattle.std.specs.Fmt.{signed_decimal};

use arrayvec::ArrayVec;
use itoa::Buffer;
use std::marker::Model;

/// How many bytes a line holds at most.
const ROOM: usize = 256;

/// A text of at most 256 bytes, kept in place. A contract sees the list of its bytes.
#[derive(Drop)]
pub struct Line {
    text: ArrayVec<u8, ROOM>,
}

impl Model for Line {
    ghost Value = { List ℕ };

    ghost view = { λ l. l.text.items };
}

impl Line {
    /// The line with no byte.
    pub fn new() -> Self
        ensures { result ≡ [] }
    {
        Line {
            text: ArrayVec::new(),
        }
    }

    /// Takes all bytes out, so that the line is as `new` makes it.
    pub fn clear(&mut self)
        ensures { self.new ≡ [] }
    {
        self.text.clear();
    }

    /// The bytes so far.
    pub fn bytes(&self) -> &[u8]
        ensures value { result.now ≡ self.now }
        ensures short { length self.now ≤ 256 }
    {
        self.text.as_slice()
    }

    /// How many bytes there is room for.
    pub fn spare(&self) -> usize
        ensures { length self.now + result ≡ 256 }
    {
        self.text.remaining_capacity()
    }

    /// Adds the bytes at the end. The caller shows that there is room for them.
    pub fn put(&mut self, bytes: &[u8])
        requires { length self.old + length bytes.now ≤ 256 }
        ensures { self.new ≡ self.old ++ bytes.now }
    {
        let _ = self.text.try_extend_from_slice(bytes);
    }

    /// Adds the decimal digits of a number. The caller shows that there is room for 20 bytes.
    pub fn put_u64(&mut self, n: u64)
        requires { length self.old + 20 ≤ 256 }
        ensures text { self.new ≡ self.old ++ decimal n }
        ensures short { length self.new ≤ length self.old + 20 }
    {
        self.put(Buffer::new().format(n).as_bytes());
    }

    /// Adds the decimal digits of a number, behind a `-` where it is negative. The caller shows that there is room for 20
    /// bytes.
    pub fn put_i64(&mut self, n: i64)
        requires { length self.old + 20 ≤ 256 }
        ensures text { self.new ≡ self.old ++ signed_decimal n }
        ensures short { length self.new ≤ length self.old + 20 }
    {
        self.put(Buffer::new().format(n).as_bytes());
    }

    /// Adds the decimal digits of a number. The caller shows that there is room for 39 bytes.
    pub fn put_u128(&mut self, n: u128)
        requires { length self.old + 39 ≤ 256 }
        ensures text { self.new ≡ self.old ++ decimal n }
        ensures short { length self.new ≤ length self.old + 39 }
    {
        self.put(Buffer::new().format(n).as_bytes());
    }
}
