//! The words with which programs are run.
use std::{env, io};

/// How often each row is tried, for a program that is timed: the first number among the words, 1 where there is none.
pub fn times_in(rt: &HostRuntime) -> io::Result<u32> {
    for word in env::args(rt)?.skip(1) {
        if let Ok(times) = word.parse::<u32>() {
            return Ok(times);
        }
    }
    Ok(1)
}
