//! What has a place in the text.
ghost use Rattle.std.specs.Prelude.{◌≡◌, ℕ};

use script_grammar::{FieldDecl, MessageDecl, Spelt};

/// A part of a script, at whose place a fault is reported.
pub trait Placed {
    ghost place: { Self → ℕ };

    fn place(&self) -> u64
        ensures { result ≡ place self.now };
}

impl Placed for u64 {
    ghost place = { λ p. p };

    fn place(&self) -> u64 {
        *self
    }
}

impl Placed for Spelt {
    ghost place = { λ s. s.place };

    fn place(&self) -> u64 {
        self.place
    }
}

impl Placed for MessageDecl {
    ghost place = { λ m. m.name.place };

    fn place(&self) -> u64 {
        self.name.place
    }
}

impl Placed for FieldDecl {
    ghost place = { λ f. f.name.place };

    fn place(&self) -> u64 {
        self.name.place
    }
}
