//! ASCII texts in others, whatever their case.
ghost use Rattle.std.specs.Prelude.{◌≡◌, ◌∷◌, map};
ghost use Rattle.std.specs.Char.{to_ascii_lowercase};
ghost use Rattle.folded_text.specs.Contains.{begins, stands_in};

/// Whether a text stands in another, where capital letters of ASCII count as small ones. Takes no memory.
#[tactic(auto, unfolding(folded_text::specs::Contains::begins, folded_text::specs::Contains::stands_in))]
pub(crate) fn stands_in(text: &[u8], needle: &[u8]) -> bool
    ensures { result ≡ stands_in (map to_ascii_lowercase needle.now) (map to_ascii_lowercase text.now) }
{
    match needle.split_first() {
        Some((first, others)) => has_both(text, first.to_ascii_lowercase(), others),
        None => true,
    }
}

// Whether a small letter stands in the text with others behind it.
#[tactic(auto, unfolding(folded_text::specs::Contains::begins, folded_text::specs::Contains::stands_in))]
fn has_both(text: &[u8], first: u8, others: &[u8]) -> bool
    ensures { result ≡ stands_in (first ∷ map to_ascii_lowercase others.now) (map to_ascii_lowercase text.now) }
{
    let mut rest = text;
    while let Some((byte, behind)) = rest.split_first() {
        if byte.to_ascii_lowercase() == first && begins(behind, others) {
            return true;
        }
        rest = behind;
    }
    false
}

#[tactic(auto, unfolding(folded_text::specs::Contains::begins))]
fn begins(text: &[u8], needle: &[u8]) -> bool
    ensures { result ≡ begins (map to_ascii_lowercase needle.now) (map to_ascii_lowercase text.now) }
{
    let mut rest = text;
    let mut wanted = needle;
    while let Some((letter, others)) = wanted.split_first() {
        let Some((byte, behind)) = rest.split_first() else {
            return false;
        };
        if byte.to_ascii_lowercase() != letter.to_ascii_lowercase() {
            return false;
        }
        rest = behind;
        wanted = others;
    }
    true
}
