//! When an event starts, how long it lasts, and whether it takes up the time, whatever else it has.
ghost use Rattle.std.specs.Prelude.{◌≡◌, IfSome, codes, option_and_then, true};
ghost use Rattle.spec_events.specs.Events.{has_word, is_occupying, start_in};
ghost use Rattle.spec_json.specs.Parts.{text_at};
ghost use Rattle.spec_json.specs.TreeData.{data_of};
ghost use Rattle.spec_time.specs.Durations.{duration_in};
ghost use Rattle.spec_time.specs.LocalTimes.{local_in};
ghost use Rattle.spec_time.specs.Walls.{is_in_years};

use spec_events::values::is_one_of;
use spec_json::tree::Tree;
use spec_time::length::Length;
use spec_time::wall::Wall;
use time_text::{read_duration, read_local};

/// The wall second at which an event starts, or that of 1970-01-01T00:00:00 where it doesn't say (RFC 8984 section 5.1.1). Takes no memory.
pub fn start_of(event: &Tree) -> Wall
    ensures value { result ≡ start_in (data_of event.now) }
    ensures years { is_in_years result ≡ true }
{
    match given_start(event) {
        Some(start) => start,
        None => Wall::new(0),
    }
}

fn given_start(event: &Tree) -> Option<Wall>
    ensures value { result ≡ option_and_then local_in (text_at (codes "start") (data_of event.now)) }
    ensures years { IfSome result (λ w. is_in_years w ≡ true) }
{
    read_local(event.text_at("start")?.as_str().as_bytes())
}

/// How long an event lasts, where it says so (RFC 8984 section 5.1.2). Takes no memory.
pub fn given_length(event: &Tree) -> Option<Length>
    ensures { result ≡ option_and_then duration_in (text_at (codes "duration") (data_of event.now)) }
{
    read_duration(event.text_at("duration")?.as_str().as_bytes())
}

/// Whether an event takes up the time: it isn't cancelled (RFC 8984 section 5.1.3), and isn't marked as free (section 4.4.2). Takes no memory.
pub fn is_occupying(event: &Tree) -> bool
    ensures { result ≡ is_occupying (data_of event.now) }
{
    !has_word(event, "status", "cancelled") && !has_word(event, "freeBusyStatus", "free")
}

fn has_word(event: &Tree, key: &str, word: &str) -> bool
    ensures { result ≡ has_word key.now word.now (data_of event.now) }
{
    match event.get(key) {
        Some(value) => is_one_of(value, &[word]),
        None => false,
    }
}
