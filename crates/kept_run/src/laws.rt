//! What follows of what is promised of a kept run. Laws; they do nothing.
ghost use Rattle.kept_run.specs.Completes.{FaultlessKeptRunsWork, GoodListsAreTaken, RunsGoOn};

/// A run in which nothing fails answers the lines of its input, or runs out of memory: where words and configuration are accepted and the keeper
/// tells a list of each account from which it goes on.
pub fn faultless_kept_runs_work()
    ensures { FaultlessKeptRunsWork }
{}

/// A keeper that tells a list of each account from which it goes on, and doesn't fail, is never why a run ends.
pub fn good_lists_are_taken()
    ensures { GoodListsAreTaken }
{}

/// The run that is begun next goes on from just the entries of the lines that were kept.
pub fn runs_go_on()
    ensures { RunsGoOn }
{}
