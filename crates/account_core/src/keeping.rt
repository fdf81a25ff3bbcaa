//! What keeps the entries of a call before the account has them.
ghost use Rattle.std.specs.Prelude.{◌≡◌, ◌≤◌, ◌^◌, ◌++◌, Err, List, OnErr, OnOk, Option, Some, length};
ghost use Rattle.account_core.specs.Staged.{MayBeKept};
ghost use Rattle.cal_model.specs.Answer.{entries_from, unkept_answer};
ghost use Rattle.spec_calls.specs.declared.call.Reply.{Reply};
ghost use Rattle.spec_history.specs.Base.{Base};
ghost use Rattle.spec_history.specs.declared.entry.Entry.{Entry};

use journal_keeper::keeper::KeepError;
use spec_history::entry::Change;
use spec_history::stamp::Stamp;

/// What keeps the entries of an account, those of a call before the account has them.
///
/// Contracts see of which account it has which entries, and how a call is answered whose entries could not be kept: `None` where those of every call are.
pub trait EntryKeeper {
    ghost unkept: { Option (List Entry → Reply) };

    // It has these entries of the account of this base.
    ghost has: { Self → Base → List Entry → Type 0 };

    /// Keeps the entries that a call's changes become, all of them or none. An account goes on from these behind the entries that it has.
    fn keep(&mut self, stamp: &Stamp, changes: &[Change]) -> Result<(), KeepError>
        requires { length changes.now ≤ 2 ^ 32 }
        ensures kept { OnOk result ((base : Base) (h : List Entry) → MayBeKept base.zones h changes.now → has self.old base h
            → has self.new base (h ++ entries_from stamp.now 0 changes.now)) }
        ensures not_kept { OnErr result ((base : Base) (h : List Entry) → MayBeKept base.zones h changes.now → has self.old base h → has self.new base h) }
        ensures told { result ≡ Err KeepError.Failed → unkept ≡ Some unkept_answer };
}
