//! The calls of a memory form that are to fail.

ghost use Rattle.std.specs.Prelude.{◌≡◌, ◌+◌, IsTrue, if◌then◌else◌};
ghost use Rattle.io_edge.specs.FailingCalls.{CountsCall, faults_of};

/// Counts calls from 0, and knows the numbers of those that are to fail.
#[derive(Drop)]
pub struct FailingCalls {
    numbers: Vec<u64>,
    calls: u64,
}

impl FailingCalls {
    /// No call was made yet. Takes no memory.
    pub fn new(numbers: Vec<u64>) -> FailingCalls
        ensures numbers { result.numbers.items ≡ numbers.items }
        ensures none { faults_of result ≡ 0 }
    {
        FailingCalls { numbers, calls: 0 }
    }

    /// Counts a call, and says whether it fails. At the last value of the count none does. Takes no memory.
    pub fn next_fails(&mut self) -> bool
        ensures faults { faults_of self.new ≡ faults_of self.old + (if result then 1 else 0) }
        ensures counts { CountsCall self.old self.new (IsTrue result) }
    {
        let number = self.calls;
        if number == u64::MAX {
            return false;
        }
        self.calls += 1;
        self.numbers.contains(&number)
    }
}
