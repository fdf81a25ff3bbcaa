//! Tables as they stand on standard input.
use crate::row::Row;
use std::alloc::{AllocError, Global};
use std::io::{self, BufRead, BufReader};
use std::mem;

/// The beginning of a line that names the table of the rows after it.
const HEADING: &str = "=== ";

/// The rows under one heading.
#[derive(Drop)]
pub struct RowTable {
    /// What the heading says, empty where the rows have none.
    pub name: String,
    pub rows: Vec<Row>,
}

impl RowTable {
    fn new(alloc: Global, name: String) -> RowTable {
        RowTable {
            name,
            rows: Vec::new(alloc),
        }
    }

    /// Whether nothing was said of the table.
    fn is_blank(&self) -> bool {
        self.name.is_empty() && self.rows.is_empty()
    }
}

/// What was read of some lines.
#[derive(Drop)]
struct Reading {
    alloc: Global,
    /// The tables before the last heading.
    before: Vec<RowTable>,
    /// The table under the last heading.
    table: RowTable,
    /// What the rows after it show.
    subject: String,
    /// A question whose answer is the next text.
    asked: Option<String>,
}

impl Reading {
    fn new(alloc: Global) -> Reading {
        Reading {
            alloc,
            before: Vec::new(alloc),
            table: RowTable::new(alloc, String::new(alloc)),
            subject: String::new(alloc),
            asked: None,
        }
    }

    fn take(&mut self, line: String) -> Result<(), AllocError> {
        if let Some(name) = line.strip_prefix(HEADING) {
            let name = String::from_str(self.alloc, name)?;
            self.begin(name)
        } else if line.starts_with("#") {
            self.subject = line;
            Ok(())
        } else if line.is_empty() {
            Ok(())
        } else {
            self.take_text(line)
        }
    }

    fn take_text(&mut self, line: String) -> Result<(), AllocError> {
        match self.asked.take() {
            None => {
                self.asked = Some(line);
                Ok(())
            }
            Some(asked) => self.push(asked, line),
        }
    }

    fn push(&mut self, asked: String, answer: String) -> Result<(), AllocError> {
        let subject = self.subject.clone()?;
        self.table.rows.push(Row {
            subject,
            asked,
            answer,
        })?;
        Ok(())
    }

    /// Ends the table under the last heading, and begins one of this name.
    fn begin(&mut self, name: String) -> Result<(), AllocError> {
        if let Some(asked) = self.asked.take() {
            self.push(asked, String::new(self.alloc))?;
        }
        self.subject = String::new(self.alloc);
        let table = mem::replace(&mut self.table, RowTable::new(self.alloc, name));
        if !table.is_blank() {
            self.before.push(table)?;
        }
        Ok(())
    }
}

/// The tables on standard input. Takes memory for them.
///
/// A line that begins with `=== ` names the table of the rows after it, one that begins with `#` says what the rows after it show, an empty line
/// says nothing, and of the others each second one is the answer to the line before it. A question behind which no answer comes has an empty one.
pub fn read_tables(rt: &HostRuntime) -> io::Result<Vec<RowTable>> {
    let alloc = rt.alloc();
    let mut reading = Reading::new(alloc);
    for line in BufReader::new(alloc, rt.reader())?.lines(alloc) {
        reading.take(line?)?;
    }
    reading.begin(String::new(alloc))?;
    Ok(reading.before)
}

/// The rows of all tables on standard input. Takes memory for them.
pub fn read_rows(rt: &HostRuntime) -> io::Result<Vec<Row>> {
    let mut rows = Vec::new(rt.alloc());
    for table in read_tables(rt)? {
        for row in table.rows {
            rows.push(row)?;
        }
    }
    Ok(rows)
}
