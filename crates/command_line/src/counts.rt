//! Numbers in the words of the command line, in decimal digits without a sign or a leading zero.

ghost use Rattle.std.specs.Prelude.{◌≡◌, ◌≤◌, IfSome, option_map};
ghost use Rattle.command_line.specs.Commands.{count_in, count_or, number_up_to};

use time_text::read_number;

/// The number from 1 to `most` that a text writes out. Takes no memory.
pub(crate) fn count_in(text: &str, most: u64) -> Option<u64>
    ensures is { result ≡ count_in most text.now }
    ensures within { IfSome result (λ n. (1 ≤ n) × (n ≤ most)) }
{
    let count = read_number(text.as_bytes())?;
    if count > 0 && count <= most {
        Some(count)
    } else {
        None
    }
}

/// The number of an option, or another one where it isn't given. Takes no memory.
pub(crate) fn count_or(text: Option<&str>, most: u64, default: u64) -> Option<u64>
    requires { (1 ≤ default) × (default ≤ most) }
    ensures is { result ≡ count_or most default (option_map (λ s. s.now) text.entry) }
    ensures within { IfSome result (λ n. (1 ≤ n) × (n ≤ most)) }
{
    match text {
        Some(text) => count_in(text, most),
        None => Some(default),
    }
}

/// The number up to `most` that a text writes out. Takes no memory.
pub(crate) fn number_up_to(text: &str, most: u64) -> Option<u64>
    ensures is { result ≡ number_up_to most text.now }
    ensures within { IfSome result (λ n. n ≤ most) }
{
    let number = read_number(text.as_bytes())?;
    if number <= most { Some(number) } else { None }
}
