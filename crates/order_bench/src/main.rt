//! Puts made-up events in order, says what changed of the result, and applies that, as many times as its words ask: work for `bench/orders.py` to time.
#![tactic(auto)]

mod events;
mod rounds;

use events::Events;
use rounds::Rounds;
use std::alloc::{AllocError, Global};
use std::{env, io};

/// The words after the program's name, none where there aren't five numbers: how many events there are, how many of them are touched, and
/// how often the result is made, the changes found, and the changes applied.
fn numbers(rt: &HostRuntime) -> io::Result<Option<[u32; 5]>> {
    let mut numbers = [0; 5];
    let mut count = 0;
    for word in env::args(rt)?.skip(1) {
        match word.parse::<u32>() {
            Ok(number) if count < 5 => numbers[count] = number,
            _ => return Ok(None),
        }
        count += 1;
    }
    if count == 5 {
        Ok(Some(numbers))
    } else {
        Ok(None)
    }
}

/// What comes of the work that five numbers ask for.
fn worked(alloc: Global, numbers: [u32; 5]) -> Result<String, AllocError> {
    let [events, touched, results, changes, splices] = numbers;
    let events = Events::made_up(alloc, events, touched)?;
    let rounds = Rounds {
        results,
        changes,
        splices,
    };
    rounds.work(alloc, &events)
}

fn main(rt: HostRuntime) -> io::Result<()> {
    match numbers(&rt)? {
        Some(numbers) => {
            let worked = worked(rt.alloc(), numbers)?;
            println!(rt; "{worked}")
        }
        None => println!(rt; "usage: order_bench EVENTS TOUCHED RESULTS CHANGES SPLICES"),
    }
}
