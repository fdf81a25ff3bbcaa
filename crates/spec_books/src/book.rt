//! A list of entries that grows by calls.
ghost use Rattle.std.specs.Prelude.{◌≡◌, ◌≤◌, ◌^◌, ℤ, List, Option, IfOk, OnErr, length};
ghost use Rattle.spec_books.specs.Acting.{Came};
ghost use Rattle.spec_history.specs.Base.{Base};
ghost use Rattle.spec_history.specs.Signed.{AreSigned};
ghost use Rattle.spec_history.specs.declared.entry.Entry.{Entry};
ghost use Rattle.spec_history.specs.declared.stamp.Stamp.{Stamp};

use spec_time::moment::Moment;
use std::alloc::AllocError;

/// What holds a history: an account, or anything else whose calls are answered at a list of entries and add to it.
///
/// Contracts see its base, which no call changes, and its entries. What a call is answered and what it adds are
/// functions of these two and of the call, the first of its moment too, the second of its author, turn and moment.
/// Where what it adds could not be kept, nothing comes of it, and it is replied so. A book may go from thread to thread.
pub trait Book: Drop + Send + 'static {
    /// What is asked.
    type Call: 'static;

    /// What is answered.
    type Reply: 'static;

    ghost base: { Self → Base };

    ghost entries: { Self → List Entry };

    // The reply to a call at a history, at a moment. Who calls has no part in it.
    ghost answer: { Base → List Entry → Self.Call → ℤ → Self.Reply };

    // The entries that a call adds to a history.
    ghost added: { Base → List Entry → Self.Call → Stamp → List Entry };

    // The reply at a history to a call whose entries could not be kept. None where the entries of every call are.
    ghost unkept: { Option (List Entry → Self.Reply) };

    /// Answers a call and adds its entries, or tells that they could not be kept. `author` is the number of the pass that calls, `turn` the number of
    /// this call among those of its author.
    ///
    /// After running out of memory the entries are as before.
    fn act(
        &mut self,
        author: u32,
        turn: u64,
        call: &Self::Call,
        moment: Moment,
    ) -> Result<Self::Reply, AllocError>
        ensures base { base self.new ≡ base self.old }
        ensures came { IfOk result (λ r. Came answer added unkept (base self.old) (entries self.old) call.now
            (record { author = author; turn = turn; moment = moment }) r (entries self.new)) }
        ensures unchanged { OnErr result (entries self.new ≡ entries self.old) };

    /// The number of entries. Takes no memory.
    fn count(&self) -> u64
        ensures exact { result ≡ length (entries self.now) }
        ensures most { result ≤ 2 ^ 40 };

    // What a call adds carries its author and its turn.
    ghost signed: { (b : Base) (h : List Entry) (c : Self.Call) (s : Stamp) → AreSigned s.author s.turn (added b h c s) };
}
