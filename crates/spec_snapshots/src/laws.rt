//! The law of what is kept, the contract of a function that does nothing.
ghost use Rattle.std.specs.Prelude.{◌≡◌, List, true};
ghost use Rattle.spec_history.specs.declared.entry.Entry.{Entry};
ghost use Rattle.spec_snapshots.specs.Kept.{IsKeptFrom, may_be_kept};
ghost use Rattle.spec_snapshots.specs.declared.kept.KeptHistory.{KeptHistory};

/// What passes the test is kept of some history. So a keeper that has no more than floors and what came behind them may tell a history. Takes no memory.
pub fn some_history_is_kept_so()
    ensures { (k : KeptHistory) → may_be_kept k ≡ true → (h : List Entry) × IsKeptFrom h k }
{}
