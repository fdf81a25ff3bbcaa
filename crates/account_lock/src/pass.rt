//! A pass of a lock.
ghost use Rattle.std.specs.Prelude.{◌≡◌, ◌≤◌};
ghost use Rattle.spec_history.specs.MostTurns.{most_turns};

use crate::steps::PassSeat;
use spec_books::book::Book;
use std::marker::Model;

/// A thread's right to call the book of a lock. Contracts see which lock it is of, the lock's base, its number, the
/// number of its calls, and the history as far as it knows it, with its own entries in it. It isn't inside a call.
#[derive(Drop)]
pub struct Pass<B: Book> {
    pub(crate) seat: PassSeat<B>,
    pub(crate) number: u32,
    pub(crate) turns: u64,
}

impl<B: Book> Model for Pass<B> {
    ghost use Rattle.std.specs.Prelude.{◌≡◌, ◌≤◌, []};
    ghost use Rattle.std.specs.Coded.{codes};
    ghost use Rattle.spec_json.specs.DataCode.{data_code};
    ghost use Rattle.spec_history.specs.MostTurns.{most_turns};
    ghost use Rattle.account_lock.specs.declared.lock.Phase.TheVariants.{Idle};
    ghost use Rattle.account_lock.specs.Passes.{PassState, pass_state};

    ghost Value = { PassState };

    ghost coded = { Prim.hlevel (codes, data_code) };

    ghost view = { λ p. pass_state p.seat.table_id p.seat.me.0 };

    ghost invariant = { λ p. (p.seat.me.0.phase ≡ Idle) × (p.seat.me.1 ≡ []) × (p.number ≡ p.seat.me.0.number)
        × (p.turns ≡ p.seat.me.0.turns) × (p.turns ≤ most_turns) };
}

impl<B: Book> Pass<B> {
    /// How many calls it has made: at most 2^40. Takes no memory.
    pub fn turns(&self) -> u64
        ensures is { result ≡ self.now.turns }
        ensures few { result ≤ most_turns }
    {
        self.turns
    }
}
