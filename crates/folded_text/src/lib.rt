//! Texts that are looked for in others, whatever their case.
#![tactic(auto)]

ghost use Rattle.std.specs.Prelude.{◌≡◌, IfOk};
ghost use Rattle.folded_text.specs.Contains.{folded, stands_in};

use caseless::default_case_fold_str;
use memchr::memmem;
use std::alloc::{AllocError, Global};
use std::marker::Model;

/// A text whose case is folded (The Unicode Standard section 3.13, default case folding). Contracts see its bytes, which are UTF-8.
#[derive(Drop)]
pub struct FoldedText {
    text: String,
}

impl Model for FoldedText {
    ghost use Rattle.std.specs.Prelude.{List, ℕ, string_bytes};

    ghost Value = { List ℕ };

    ghost view = { λ a. string_bytes a.text };
}

impl FoldedText {
    /// A text with its case folded. Takes memory for the text.
    pub fn new(alloc: Global, text: &str) -> Result<FoldedText, AllocError>
        ensures { IfOk result (λ t. t ≡ folded text.now) }
    {
        let text = default_case_fold_str(alloc, text)?;
        Ok(FoldedText { text })
    }

    /// Whether this text stands in another, whose case is folded here. Takes memory for the folded text.
    pub fn is_in(&self, alloc: Global, text: &str) -> Result<bool, AllocError>
        ensures { IfOk result (λ b. b ≡ stands_in self.now (folded text.now)) }
    {
        let folded = default_case_fold_str(alloc, text)?;
        Ok(stands_in(self.text.as_bytes(), folded.as_bytes()))
    }
}

fn stands_in(needle: &[u8], text: &[u8]) -> bool
    ensures { result ≡ stands_in needle.now text.now }
{
    memmem::find(text, needle).is_some()
}
