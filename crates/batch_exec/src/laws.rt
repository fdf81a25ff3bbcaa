//! What follows of a request that was answered. A law; it does nothing.
ghost use Rattle.batch_exec.specs.Histories.{RequestsStandInHistories};

/// However answering a request ended, the calls that were answered stand in the histories of the desk's accounts, each with its front, and
/// no other entry there is the desk's. It made at most 16 calls, with one that it didn't answer.
#[tactic(auto, using(crate::proofs::HistoryLemmas::requests_stand))]
pub fn requests_stand_in_histories()
    ensures { RequestsStandInHistories }
{}
