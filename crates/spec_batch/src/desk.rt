//! What answers calls on accounts.
ghost use Rattle.std.specs.Prelude.{◌≡◌, ◌<◌};
ghost use Rattle.spec_batch.specs.Chain.{Shown, Called};

use spec_calls::call::{Call, Reply};
use spec_time::moment::Moment;

/// At which entries of an account's history a call was answered.
#[derive(Clone, Copy, Debug, PartialEq, Eq, Drop)]
pub struct Front {
    /// The number of the account, from 0.
    pub account: u32,
    /// The number of entries of the account's history before this call's own.
    pub place: u64,
}

/// Why a call wasn't answered.
#[derive(Clone, Copy, Debug, PartialEq, Eq, Drop)]
pub enum DeskError {
    /// The desk made as many calls as it may.
    PassSpent,
    /// Out of memory.
    NoMemory,
}

/// What answers calls on accounts, which other desks may share.
///
/// Contracts see of each account its base, the entries that this desk has seen, the author number that it signs with, and
/// its last turn there; besides the number of accounts and of the calls that were made.
pub trait Desk {
    ghost shown: { Self → Shown };

    /// The number of accounts, which no call changes. Takes no memory.
    fn accounts(&self) -> u32
        ensures { result ≡ (shown self.now).accounts };

    /// The place at which a call on an account would be answered if it came now, as far as that is seen without a call: a hint, of which nothing is promised. 0 where there is no
    /// such account. Takes no memory, and waits for nobody.
    fn place_now(&self, account: u32) -> u64;

    /// Answers a call on an account, at a moment.
    ///
    /// PassSpent comes exactly where 2^40 calls were made, and changes nothing. After running out of memory nothing of this call
    /// was added; entries of others may have come.
    fn call(&mut self, account: u32, call: &Call, moment: Moment) -> Result<Reply, DeskError>
        requires { account < (shown self.old).accounts }
        ensures called { Called (shown self.old) (shown self.new) account call.now moment result };
}
