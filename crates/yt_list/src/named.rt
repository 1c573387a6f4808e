//! What has a name.
ghost use Rattle.std.specs.Prelude.{◌≡◌, ℕ, List};

use crate::Name;

/// What has a name.
pub trait Named {
    // The bytes of its name.
    ghost text: { Self → List ℕ };

    /// Its name.
    fn name(&self) -> &[u8]
        ensures { result.now ≡ text self.now };
}

impl Named for Name {
    ghost text = { λ name. name };

    fn name(&self) -> &[u8] {
        self.as_slice()
    }
}
