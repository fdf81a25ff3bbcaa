//! What follows of the calls that a desk answers, and where all entries on its accounts are its own. Laws; they do nothing.
ghost use Rattle.account_desk.specs.Determined.{ConnectionsAreDetermined, RepliesAreDetermined};
ghost use Rattle.account_desk.specs.Histories.{ChainsStandInHistories};
ghost use Rattle.account_desk.specs.InTurn.{AnsweredInTurn};

/// The calls of a chain stand in the histories of the accounts, whatever others add to these. Each history grew; each call is answered at a prefix that
/// is never shorter than that of the call before it on its account; what came of it comes next; and of the desk's author no other entry came.
/// Each call is one of those that the desk has made.
pub fn chains_stand_in_histories()
    ensures { ChainsStandInHistories }
{}

/// Calls on a desk whose accounts have no entries but its own are answered one after the other: each at just the entries
/// that were there before the first, and those that came of the calls between on its account.
#[tactic(auto, using(crate::proofs::TurnLemmas::answered_in_turn))]
pub fn calls_are_answered_in_turn()
    ensures { AnsweredInTurn }
{}

/// The reply to a request on such a desk is a function of the changes of each account's history, of what the accounts were
/// opened with, of the user, the moment and what is asked. So are the changes behind it.
pub fn replies_are_determined()
    ensures { RepliesAreDetermined }
{}

/// The responses of a connection on such a desk are a function of the site, of the changes of each account's history, of
/// what the accounts were opened with, of the messages and the moments that the clock gives.
pub fn connections_are_determined()
    ensures { ConnectionsAreDetermined }
{}
