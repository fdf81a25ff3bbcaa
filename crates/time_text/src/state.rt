//! States.
ghost use Rattle.std.specs.Prelude.{◌≡◌, ◌==◌, ◌<◌, IfOk, IfSome, length, position};
ghost use Rattle.spec_history.specs.States.{hyphen, state_text};
ghost use Rattle.time_text.specs.State.{number_named, state_in, state_with, unsigned_in};

use crate::number::read_number;
use spec_core::numbers::MAX_UNSIGNED_INT;
use spec_history::state::State;
use spec_json::text::Text;
use std::alloc::{AllocError, Global};

/// The state that a text names (RFC 8620 section 5.1): two numbers below 2^53 in decimal digits without leading zeros, the generation
/// first, joined by `-`.
///
/// None where the text is anything else. Takes no memory.
pub fn read_state(text: &[u8]) -> Option<State>
    ensures { result ≡ state_in text.now }
{
    let hyphen = place_of_hyphen(text)?;
    state_with(
        read_unsigned(&text[..hyphen]),
        read_unsigned(&text[hyphen + 1..]),
    )
}

fn place_of_hyphen(text: &[u8]) -> Option<usize>
    ensures place { result ≡ position (λ byte. byte == hyphen) text.now }
    ensures there { IfSome result (λ place. place < length text.now) }
{
    text.iter().position(|byte| *byte == b'-')
}

fn state_with(generation: Option<u64>, number: Option<u64>) -> Option<State>
    ensures { result ≡ state_with generation number }
{
    Some(State {
        generation: generation?,
        number: number?,
    })
}

/// The number of the state that a text names in this generation, or `None` where it names none or one of another generation. Takes no
/// memory.
pub fn number_named(generation: u64, text: &[u8]) -> Option<u64>
    ensures { result ≡ number_named generation text.now }
{
    let state = read_state(text)?;
    if state.generation == generation {
        Some(state.number)
    } else {
        None
    }
}

fn read_unsigned(digits: &[u8]) -> Option<u64>
    ensures { result ≡ unsigned_in digits.now }
{
    read_number(digits).filter(|number| *number <= MAX_UNSIGNED_INT)
}

/// A state as clients see it (RFC 8620 section 5.1). Takes memory for the text.
pub fn state_text(alloc: Global, state: State) -> Result<Text, AllocError>
    ensures { IfOk result (λ t. t ≡ state_text state) }
{
    let mut text = state.generation.to_string(alloc)?;
    text.push('-')?;
    text.push_str(&state.number.to_string(alloc)?)?;
    Text::from_string(text)
}
