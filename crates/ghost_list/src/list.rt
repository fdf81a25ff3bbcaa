//! The list.
ghost use Rattle.std.specs.Borrow.{ftrue};
ghost use Rattle.std.specs.Prelude.{◌≡◌, List, [], ◌∷◌, ◌++◌};

use std::marker::{Model, PhantomData};

/// A list that exists in proofs alone: it takes no byte, and its calls do nothing when they run.
///
/// Clauses read it as `items`. What is said of it is worth what the code beside it has to answer by it: a type that keeps a part of some data, and tells all of
/// it to such a list, has to answer as the whole list would.
#[derive(Drop)]
pub struct GhostList<A> {
    of: PhantomData<A>,
    pub ghost items: { List A },
}

impl<A> Model for GhostList<A> {
    ghost also_owns = { λ _. ftrue };
}

// It owns nothing.
unsafe impl<A: Send> Send for GhostList<A> {}

impl<A> GhostList<A> {
    /// The empty list. Takes no memory.
    pub fn new() -> GhostList<A>
        ensures { result.items ≡ [] }
    {
        GhostList { of: PhantomData }
    }

    /// The list that something tells, as a proof says. Takes no memory.
    pub fn of<B>(shown: &B) -> GhostList<A>
        ghost told: { B → List A }
        ensures { result.items ≡ told shown.now }
    {
        GhostList { of: PhantomData }
    }

    /// The list with one item more at its end. Takes no memory.
    pub fn and(&self, item: &A) -> GhostList<A>
        ensures { result.items ≡ self.now.items ++ item.now ∷ [] }
    {
        GhostList { of: PhantomData }
    }
}
