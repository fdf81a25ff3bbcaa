//! Rows of messages: bytes, and what calls of `next_message` give of them until one gives no message.
ghost use Rattle.std.specs.Prelude.{◌<◌};

use crate::messages::findings::Findings;
use crate::messages::given::{Given, Parts};
use http_edge::held::HeldBytes;
use http_edge::next::{Next, next_message};
use io_edge::memory_source::MemSource;
use io_edge::source::Source;
use std::alloc::{AllocError, Global};

/// The most calls for one input.
const MAX_CALLS: u32 = 1000;
/// The most bytes of an input that is also cut after each byte, and whose takes fail one after the other.
const MAX_CUT: usize = 1000;

/// What came of an input.
#[derive(Drop)]
struct Outcome {
    given: Vec<Given>,
    /// How many calls ended by a fault of the source.
    faults: u32,
    /// How many calls ran out of memory.
    wants: u32,
}

/// What calls give until one gives no message. A call after a fault, or after running out of memory, is to give what that one couldn't.
fn outcome_of<S: Source>(alloc: Global, source: &mut S) -> Result<Outcome, AllocError> {
    let mut kept = HeldBytes::new(alloc);
    let mut outcome = Outcome {
        given: Vec::new(alloc),
        faults: 0,
        wants: 0,
    };
    for _ in 0..MAX_CALLS {
        match next_message(alloc, source, &mut kept) {
            Next::Message(message) => {
                let parts = Parts::of(alloc, &message)?;
                outcome.given.push(Given::Message(parts))?;
            }
            Next::ReadFault => outcome.faults = outcome.faults.saturating_add(1),
            Next::NoMemory => outcome.wants = outcome.wants.saturating_add(1),
            Next::End => return ended(outcome, Given::End),
            Next::Truncated => return ended(outcome, Given::Truncated),
            Next::BadHead(status) => return ended(outcome, Given::BadHead(status)),
        }
    }
    Ok(outcome)
}

fn ended(outcome: Outcome, end: Given) -> Result<Outcome, AllocError> {
    let mut outcome = outcome;
    outcome.given.push(end)?;
    Ok(outcome)
}

/// Tries an input in one piece, in pieces of one byte and of seven bytes, cut after each byte, and with each take failing.
pub fn try_input(
    alloc: Global,
    input: &[u8],
    wanted: &[Given],
    findings: &mut Findings,
) -> Result<(), AllocError> {
    try_in_pieces(alloc, input, input.len() + 1, wanted, findings)?;
    try_in_pieces(alloc, input, 1, wanted, findings)?;
    try_in_pieces(alloc, input, 7, wanted, findings)?;
    if input.len() <= MAX_CUT {
        try_cut(alloc, input, wanted, findings)?;
        try_failing_takes(alloc, input, wanted, findings)?;
    }
    Ok(())
}

fn try_in_pieces(
    alloc: Global,
    input: &[u8],
    most: usize,
    wanted: &[Given],
    findings: &mut Findings,
) -> Result<(), AllocError>
    requires { 0 < most }
{
    let mut source = MemSource::new(input.to_vec(alloc)?, most, Vec::new(alloc));
    let Outcome {
        given,
        faults,
        wants,
    } = outcome_of(alloc, &mut source)?;
    findings.want(wants);
    if given.as_slice() != wanted || faults != 0 {
        let other = format!(in alloc;
            "in pieces of {most} bytes, after {faults} faults, {given:?}"
        )?;
        findings.find(other);
    }
    Ok(())
}

/// Tries each front of an input that is one message: it is no message, and nothing of it is refused.
fn try_cut(
    alloc: Global,
    input: &[u8],
    wanted: &[Given],
    findings: &mut Findings,
) -> Result<(), AllocError> {
    if !matches!(wanted, [Given::Message(_), Given::End]) {
        return Ok(());
    }
    for count in 0..input.len() {
        let mut source = MemSource::new(input[..count].to_vec(alloc)?, usize::MAX, Vec::new(alloc));
        let outcome = outcome_of(alloc, &mut source)?;
        findings.want(outcome.wants);
        let end = if count == 0 {
            Given::End
        } else {
            Given::Truncated
        };
        if outcome.given.as_slice() != [end].as_slice() {
            let given = outcome.given;
            findings.find(format!(in alloc; "cut after {count} bytes, {given:?}")?);
        }
    }
    Ok(())
}

/// Tries an input in pieces of one byte, where one take after the other fails and is made again.
fn try_failing_takes(
    alloc: Global,
    input: &[u8],
    wanted: &[Given],
    findings: &mut Findings,
) -> Result<(), AllocError> {
    let is_read_whole = matches!(wanted, [.., Given::End | Given::Truncated]);
    for call in 0..=input.len() as u64 {
        let failing = vec![in alloc; call]?;
        let mut source = MemSource::new(input.to_vec(alloc)?, 1, failing);
        let Outcome {
            given,
            faults,
            wants,
        } = outcome_of(alloc, &mut source)?;
        findings.want(wants);
        if given.as_slice() != wanted || (is_read_whole && faults != 1) {
            let other = format!(in alloc;
                "with take {call} failing, after {faults} faults, {given:?}"
            )?;
            findings.find(other);
        }
    }
    Ok(())
}
