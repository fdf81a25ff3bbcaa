//! What stands behind the sign that a text begins with.
ghost use Rattle.std.specs.Prelude.{◌≡◌, ◌<◌, option_map};
ghost use Rattle.result_refs.specs.Behind.{behind};

/// What stands behind this sign, which is of ASCII, where the text begins with it.
pub(crate) fn behind(text: &str, sign: char) -> Option<&str>
    requires { sign < 128 }
    ensures { option_map (λ s. s.now) result ≡ behind sign text.now }
{
    text.strip_prefix(sign)
}
