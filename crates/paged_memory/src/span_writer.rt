//! What writes bytes of a page.

ghost use Rattle.std.specs.Prelude.{ℕ, List, length};

/// What writes the bytes of a span that it is lent.
pub trait SpanWriter {
    /// It may be lent so many bytes.
    ghost can: { Self → ℕ → Type 0 };

    /// What it leaves in place of others.
    ghost writes: { Self → List ℕ → List ℕ → Type 0 };

    /// Writes the bytes.
    fn write(&self, part: &mut [u8])
        requires { can self.now (length part.old) }
        ensures { writes self.now part.old part.new };
}
