//! What is dealt to jobs before they are started.
ghost use Rattle.std.specs.Prelude.{◌≡◌, ℕ, ◌++◌, ◌∷◌, [], IfOk, OnOk, Some, length, slice_get};

use std::alloc::{AllocError, Global};

/// So many empty hands. Takes memory for the list of them.
pub fn empty_hands<T: Drop>(alloc: Global, count: u32) -> Result<Vec<Vec<T>>, AllocError>
    ensures count { IfOk result (λ hands. length hands.items ≡ count) }
    ensures empty { IfOk result (λ hands. (n : ℕ) (hand : _) → slice_get hands.items n ≡ Some hand → hand.items ≡ []) }
{
    let mut hands = Vec::new(alloc);
    for _ in 0..count {
        hands.push(Vec::new(alloc))?;
    }
    Ok(hands)
}

/// Gives each hand the item of its number, behind those that it has. Takes memory for the items.
pub fn deal<T: Drop>(hands: &mut Vec<Vec<T>>, items: Vec<T>) -> Result<(), AllocError>
    requires { length items.items ≡ length hands.old.items }
    ensures count { OnOk result (length hands.new.items ≡ length hands.old.items) }
    ensures dealt { OnOk result ((n : ℕ) (before after : _) (item : _) → slice_get hands.old.items n ≡ Some before → slice_get items.items n ≡ Some item
        → slice_get hands.new.items n ≡ Some after → after.items ≡ before.items ++ item ∷ []) }
{
    for (number, item) in items.into_iter().enumerate() {
        hands[number].push(item)?;
    }
    Ok(())
}
