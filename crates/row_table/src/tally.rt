//! The count of rows.
ghost use Rattle.std.specs.Prelude.{◌≡◌, ◌+◌, ◌<◌, ◌^◌, true, false};

use std::fmt;

/// How many rows were tried, and how many of them had another answer than the table's.
#[derive(Drop)]
pub struct RowTally {
    rows: u64,
    others: u64,
}

impl RowTally {
    /// No row was tried yet.
    pub fn new() -> RowTally
        ensures rows { result.rows ≡ 0 }
        ensures others { result.others ≡ 0 }
    {
        RowTally { rows: 0, others: 0 }
    }

    /// So many rows were tried, and so many of them had another answer.
    pub fn of(rows: u64, others: u64) -> RowTally
        ensures rows { result.rows ≡ rows }
        ensures others { result.others ≡ others }
    {
        RowTally { rows, others }
    }

    /// Counts a row, whose answer was the table's or another. The counts stand at the last value of a `u64`.
    pub fn count(&mut self, is_answered: bool)
        ensures rows { self.old.rows + 1 < 2 ^ 64 → self.new.rows ≡ self.old.rows + 1 }
        ensures answered { is_answered ≡ true → self.new.others ≡ self.old.others }
        ensures other { is_answered ≡ false → self.old.others + 1 < 2 ^ 64 → self.new.others ≡ self.old.others + 1 }
    {
        self.rows = self.rows.saturating_add(1);
        if !is_answered {
            self.others = self.others.saturating_add(1);
        }
    }
}

impl fmt::Display for RowTally {
    ghost use Rattle.std.specs.Prelude.{◌++◌, Some, codes, decimal};

    ghost output = { λ tally. Some (decimal tally.rows ++ (codes " rows, " ++ (decimal tally.others ++ codes " of them with another answer than the table's"))) };

    fn fmt<W: fmt::Write>(&self, f: &mut fmt::Formatter<W>) -> fmt::Result {
        let RowTally { rows, others } = self;
        write!(
            f,
            "{rows} rows, {others} of them with another answer than the table's"
        )
    }
}
