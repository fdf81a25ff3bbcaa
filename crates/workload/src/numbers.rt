//! What a workload came to.
ghost use Rattle.std.specs.Prelude.{◌≡◌, ◌++◌, IfOk, OnOk, string_bytes};
ghost use Rattle.workload.specs.Counts.{line, lines};

use std::alloc::{AllocError, Global};

/// The numbers that a workload came to.
#[derive(Clone, Copy, Debug, PartialEq, Eq, Drop)]
pub struct Numbers {
    /// Of events that were created.
    pub bookings: u64,
    /// Of events that were refused as a clash.
    pub clashes: u64,
    /// Of entries of the account.
    pub entries: u64,
    /// Of ids in all pages of changes.
    pub changed: u64,
}

impl Numbers {
    /// A line for each number, behind its name. Takes memory for the text.
    pub fn lines(&self, alloc: Global) -> Result<String, AllocError>
        ensures { IfOk result (λ text. string_bytes text ≡ lines self.now) }
    {
        let mut text = String::new(alloc);
        push_line(alloc, &mut text, "bookings", self.bookings)?;
        push_line(alloc, &mut text, "clashes", self.clashes)?;
        push_line(alloc, &mut text, "entries", self.entries)?;
        push_line(alloc, &mut text, "changed", self.changed)?;
        Ok(text)
    }
}

fn push_line(alloc: Global, text: &mut String, name: &str, number: u64) -> Result<(), AllocError>
    ensures { OnOk result (string_bytes text.new ≡ string_bytes text.old ++ line name.now number) }
{
    text.push_str(name)?;
    text.push(' ')?;
    text.push_str(number.to_string(alloc)?.as_str())?;
    text.push('\n')
}
