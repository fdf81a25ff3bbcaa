//! What follows of what is promised of a worker. Laws; they do nothing.
ghost use Rattle.listen_workers.specs.Chained.{CallsAreAChain, WorkersStandInHistories};
ghost use Rattle.listen_workers.specs.Joined.{HistoriesAreOfCalls};

use spec_books::book::Book;

/// What the connections of a worker asked of its desk is one chain, and its fronts are theirs, joined in order: where the desk answered all that it was asked.
#[tactic(auto, using(crate::proofs::ChainLemmas::calls_are_a_chain))]
pub fn calls_are_a_chain()
    ensures { CallsAreAChain }
{}

/// However its connections ended, the calls that were answered on them stand in the histories of its desk's accounts, with the fronts of the
/// connections, joined in order, and no other entry there is the desk's. It made at most 160,000 calls for each connection.
pub fn workers_stand_in_histories()
    ensures { WorkersStandInHistories }
{}

/// Once all workers have ended that share accounts, the history of each account is what it was opened with and then the entries of exactly the calls of all
/// their connections and all their sockets, each once, in an order that keeps each worker's own: in each state of the account's lock in which its passes are those that the workers left.
pub fn histories_are_of_calls<B: Book>()
    ensures { HistoriesAreOfCalls B.entries B.base }
{}
