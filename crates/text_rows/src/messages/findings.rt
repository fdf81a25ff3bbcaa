//! What was found of a row.

/// What first came otherwise than a row has it, and how often memory ran out.
#[derive(Drop)]
pub struct Findings {
    other: Option<String>,
    wants: u64,
}

impl Findings {
    /// Nothing was found yet. Takes no memory.
    pub fn new() -> Findings {
        Findings {
            other: None,
            wants: 0,
        }
    }

    /// Something came otherwise. Takes no memory.
    pub fn find(&mut self, other: String) {
        if self.other.is_none() {
            self.other = Some(other);
        }
    }

    /// So many calls ran out of memory. Takes no memory.
    pub fn want(&mut self, calls: u32) {
        self.wants = self.wants.saturating_add(calls.into());
    }

    /// How many calls ran out of memory.
    pub fn wants(&self) -> u64 {
        self.wants
    }

    /// What first came otherwise.
    pub fn into_other(self) -> Option<String> {
        self.other
    }
}
