//! Ways to look for a text.
ghost use Rattle.std.specs.Prelude.{◌≡◌, ℕ, List, Bool, IfOk};

use std::alloc::AllocError;

/// A test of texts, as whether another text stands in them. Contracts see which texts pass.
pub trait Finds {
    ghost finds: { Self → List ℕ → Bool };

    /// Whether a text passes.
    fn finds(&self, text: &str) -> Result<bool, AllocError>
        ensures { IfOk result (λ b. b ≡ finds self.now text.now) };
}
