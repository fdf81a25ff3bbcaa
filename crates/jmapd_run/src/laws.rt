//! What follows of what is promised of a run. Laws; they do nothing.
ghost use Rattle.jmapd_run.specs.Completes.{FaultlessRunsWork};
ghost use Rattle.jmapd_run.specs.Determined.{OutputsAreDetermined};

/// A run in which nothing fails, and whose words and configuration are accepted, does its work, or runs out of memory.
pub fn faultless_runs_work()
    ensures { FaultlessRunsWork }
{}

/// Of runs in which nothing fails and memory suffices the status and the output are a function of the words, the files, the input and the
/// moments that the clock gives.
pub fn outputs_are_determined()
    ensures { OutputsAreDetermined }
{}
