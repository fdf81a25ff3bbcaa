//! Flags in the words of the command line.

ghost use Rattle.std.specs.Prelude.{◌≡◌, option_map};
ghost use Rattle.command_line.specs.Commands.{is_given};

/// Whether the value that `clap` has of a flag is that of one that is given. Takes no memory.
pub(crate) fn is_given(value: Option<&str>) -> bool
    ensures { result ≡ is_given (option_map (λ s. s.now) value.entry) }
{
    match value {
        Some(value) => value == "true",
        None => false,
    }
}
