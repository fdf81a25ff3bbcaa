//! The rows of a table.
use std::io;

/// A line that asks, and the line that is to answer it.
#[derive(Drop)]
pub struct Row {
    /// What the row shows.
    pub subject: String,
    pub asked: String,
    pub answer: String,
}

impl Row {
    /// Tells of the row, and of what came of it instead of its answer.
    pub fn tell(&self, rt: &HostRuntime, came: &str) -> io::Result<()> {
        println!(rt; "{}", self.subject)?;
        println!(rt; "asked: {}", self.asked)?;
        println!(rt; "table: {}", self.answer)?;
        println!(rt; "came:  {came}")
    }
}
