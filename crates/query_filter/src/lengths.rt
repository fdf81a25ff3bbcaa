//! How long a text is that contains another.
ghost use Rattle.std.specs.Prelude.{◌≡◌, false, true};
ghost use Rattle.folded_text.specs.Contains.{contains};

/// Whether a text is so short that it can't contain the other: folding leaves at least a quarter of a text's bytes, and makes at most
/// eight times as many of them, but of ASCII as many. Takes no memory.
pub(crate) fn is_too_short(text: &str, needle: &str) -> bool
    ensures { result ≡ true → contains text.now needle.now ≡ false }
{
    if text.is_ascii() {
        return text.len() < needle.len() / 4;
    }
    text.len() < needle.len() / 32
}
