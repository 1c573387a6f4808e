//! A text that grows.
ghost use Rattle.std.specs.Prelude.{◌≡◌, [], ◌∷◌, ◌++◌, decimal, OnOk};
ghost use Rattle.std.specs.Fmt.{signed_decimal};

use crate::line::Line;
use std::alloc::{AllocError, Global};
use std::marker::Model;

/// A text of any length. A contract sees the list of its bytes.
#[derive(Drop)]
pub struct Text {
    bytes: Vec<u8>,
}

impl Model for Text {
    ghost use Rattle.std.specs.Prelude.{List, ℕ};

    ghost Value = { List ℕ };

    ghost view = { λ t. t.bytes.items };
}

impl Text {
    /// The text with no byte. Takes no memory until the first `put`.
    pub fn new(alloc: Global) -> Self
        ensures { result ≡ [] }
    {
        Text {
            bytes: Vec::new(alloc),
        }
    }

    /// The bytes so far.
    pub fn as_slice(&self) -> &[u8]
        ensures { result.now ≡ self.now }
    {
        &self.bytes
    }

    /// Adds the bytes at the end. `Err` comes where memory ran out.
    pub fn put(&mut self, bytes: &[u8]) -> Result<(), AllocError>
        ensures { OnOk result (self.new ≡ self.old ++ bytes.now) }
    {
        self.bytes.extend_from_slice(bytes)
    }

    /// Adds the decimal digits of a number. `Err` comes where memory ran out.
    pub fn put_u64(&mut self, n: u64) -> Result<(), AllocError>
        ensures { OnOk result (self.new ≡ self.old ++ decimal n) }
    {
        let mut digits = Line::new();
        digits.put_u64(n);
        self.put(digits.bytes())
    }

    /// Adds the decimal digits of a number. `Err` comes where memory ran out.
    pub fn put_u128(&mut self, n: u128) -> Result<(), AllocError>
        ensures { OnOk result (self.new ≡ self.old ++ decimal n) }
    {
        let mut digits = Line::new();
        digits.put_u128(n);
        self.put(digits.bytes())
    }

    /// Adds a field: a space, and the decimal digits of a number. `Err` comes where memory ran out.
    pub fn put_field(&mut self, n: u64) -> Result<(), AllocError>
        ensures { OnOk result (self.new ≡ self.old ++ 32 ∷ decimal n) }
    {
        self.put(b" ")?;
        self.put_u64(n)
    }

    /// Adds a field of up to 128 bits: a space, and the decimal digits of a number. `Err` comes where memory ran out.
    pub fn put_wide_field(&mut self, n: u128) -> Result<(), AllocError>
        ensures { OnOk result (self.new ≡ self.old ++ 32 ∷ decimal n) }
    {
        self.put(b" ")?;
        self.put_u128(n)
    }

    /// Adds the decimal digits of a number, behind a `-` where it is negative. `Err` comes where memory ran out.
    pub fn put_i64(&mut self, n: i64) -> Result<(), AllocError>
        ensures { OnOk result (self.new ≡ self.old ++ signed_decimal n) }
    {
        let mut digits = Line::new();
        digits.put_i64(n);
        self.put(digits.bytes())
    }
}
