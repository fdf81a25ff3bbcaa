//! Texts that lie in their own place.
ghost use Rattle.std.specs.Prelude.{◌≡◌, ◌≤◌, ◌↔◌, [], IfSome, IsSome, length};

use std::marker::Model;

/// A text of at most `N` bytes, which takes no memory. Contracts see its bytes, which are UTF-8.
#[derive(Drop)]
pub(crate) struct InlineText<const N: usize> {
    len: u8,
    bytes: [u8; N],
}

impl<const N: usize> Model for InlineText<N> {
    ghost use Rattle.std.specs.Prelude.{◌≡◌, ◌≤◌, IsUtf8, List, length, take, ℕ};

    ghost Value = { List ℕ };

    ghost view = { λ s. take s.len s.bytes };

    ghost invariant = { λ s. (s.len ≤ N) × (length s.bytes ≡ N) × ∥ IsUtf8 (take s.len s.bytes) ∥₁ };
}

impl<const N: usize> InlineText<N> {
    pub(crate) fn empty() -> InlineText<N>
        ensures { result ≡ [] }
    {
        InlineText {
            len: 0,
            bytes: [0; N],
        }
    }

    /// A copy of a text, where it is short enough.
    pub(crate) fn new(text: &str) -> Option<InlineText<N>>
        requires { N ≤ 255 }
        ensures some { IsSome result ↔ length text.now ≤ N }
        ensures same { IfSome result (λ short. short ≡ text.now) }
    {
        let len = text.len();
        if len > N {
            return None;
        }
        let mut bytes = [0; N];
        bytes[..len].copy_from_slice(text.as_bytes());
        Some(InlineText {
            len: len as u8,
            bytes,
        })
    }

    pub(crate) fn as_str(&self) -> &str
        ensures { result.now ≡ self.now }
    {
        unsafe { str::from_utf8_unchecked(&self.bytes[..self.len as usize]) }
    }

    pub(crate) fn copy(&self) -> InlineText<N>
        ensures { result ≡ self.now }
    {
        InlineText {
            len: self.len,
            bytes: self.bytes,
        }
    }
}
