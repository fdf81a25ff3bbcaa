//! Texts that are looked for, with their case folded.
ghost use Rattle.std.specs.Prelude.{◌≡◌, ◌≤◌, IfOk, IfSome, vec_len};
ghost use Rattle.folded_text.specs.Contains.{contains, folded};
ghost use Rattle.query_filter.specs.declared.needles.TheConstants.{MAX_KEPT};

use crate::ascii::stands_in;
use crate::lengths::is_too_short;
use folded_text::FoldedText;
use spec_json::text::Text;
use std::alloc::{AllocError, Global};

/// The most texts that are kept. Others are folded for each event.
const MAX_KEPT: usize = 16;

/// The longest text, in bytes, that is searched for without folding, which may take as many steps as the product of both lengths.
const LONGEST_UNFOLDED: usize = 64;

/// A text with itself folded.
#[derive(Drop)]
struct Needle {
    text: Text,
    in_fold: FoldedText,
    ghost is_folded: { in_fold ≡ folded text },
}

/// Texts of a filter that were folded.
#[derive(Drop)]
pub(crate) struct Needles {
    items: Vec<Needle>,
    ghost are_few: { vec_len items ≤ MAX_KEPT },
}

impl Needles {
    /// No texts. Takes no memory.
    pub(crate) fn new(alloc: Global) -> Needles {
        Needles {
            items: Vec::new(alloc),
        }
    }

    /// Folds a text, where there is room for it.
    pub(crate) fn keep(&mut self, alloc: Global, text: &Text) -> Result<(), AllocError> {
        if self.items.len() < MAX_KEPT {
            let in_fold = FoldedText::new(alloc, text.as_str())?;
            self.items.push(Needle {
                text: text.copy()?,
                in_fold,
            })?;
        }
        Ok(())
    }

    // A text that was folded. Takes no memory.
    fn find(&self, text: &Text) -> Option<&FoldedText>
        ensures { IfSome result (λ f. f.now ≡ folded text.now) }
    {
        for needle in &self.items {
            if needle.text.as_str() == text.as_str() {
                return Some(&needle.in_fold);
            }
        }
        None
    }

    /// Whether a text contains another, whatever their case. Takes memory for the folded texts.
    pub(crate) fn contains(
        &self,
        alloc: Global,
        text: &str,
        needle: &Text,
    ) -> Result<bool, AllocError>
        ensures { IfOk result (λ b. b ≡ contains text.now needle.now) }
    {
        let sought = needle.as_str();
        if sought.len() <= LONGEST_UNFOLDED && sought.is_ascii() && text.is_ascii() {
            return Ok(stands_in(text.as_bytes(), sought.as_bytes()));
        }
        if is_too_short(text, sought) {
            return Ok(false);
        }
        match self.find(needle) {
            Some(in_fold) => in_fold.is_in(alloc, text),
            None => FoldedText::new(alloc, sought)?.is_in(alloc, text),
        }
    }
}
