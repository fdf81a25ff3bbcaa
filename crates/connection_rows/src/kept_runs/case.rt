//! A row as it is read: runs of `kept` over one keeper, and what is wanted of them.
use journal_keeper::kept_text::{KeptText, Mark};
use row_table::files::bytes_of;
use row_table::line::words_in;
use row_table::members::{count_at, counts_at};
use spec_history::entry::Kind;
use spec_json::text::Text;
use spec_json::tree::Tree;
use std::alloc::{AllocError, Global};

/// The account whose texts the keeper has.
pub const ACCOUNT: &str = "A1";

/// A run, and what is wanted of it.
#[derive(Drop)]
pub struct KeptRun {
    pub input: Vec<u8>,
    /// The calls of `give` that fail, by number from 0.
    pub failing_gives: Vec<u64>,
    /// The status, as its name is written.
    pub status: String,
    /// How many lines are kept.
    pub kept: u64,
    /// How many lines are answered.
    pub written: u64,
    pub output: Vec<u8>,
}

/// Runs over one keeper, one after the other, and what it has behind them.
#[derive(Drop)]
pub struct KeptCase {
    /// The words behind the program's name.
    pub words: Vec<String>,
    /// The texts that the keeper has at the beginning.
    pub texts: Vec<KeptText>,
    /// The calls of the keeper that fail, by number from 0.
    pub failing_calls: Vec<u64>,
    pub runs: Vec<KeptRun>,
    /// The texts that the keeper has in the end.
    pub left: Vec<Vec<u8>>,
}

impl KeptCase {
    /// The case of two objects: one with `words`, `runs`, and maybe `texts` and `failing_calls`, and one with `runs` and `texts`.
    pub fn read(
        alloc: Global,
        asked: &Tree,
        answer: &Tree,
    ) -> Result<Option<KeptCase>, AllocError> {
        let Some(words) = asked.text_at("words") else {
            return Ok(None);
        };
        let Some(runs) = runs_in(alloc, asked, answer)? else {
            return Ok(None);
        };
        Ok(Some(KeptCase {
            words: words_in(alloc, words.as_str())?,
            texts: labelled_in(alloc, asked)?,
            failing_calls: counts_at(alloc, asked, "failing_calls")?,
            runs,
            left: texts_in(alloc, answer)?,
        }))
    }
}

/// The runs that are asked for, each with what answers it.
fn runs_in(alloc: Global, asked: &Tree, answer: &Tree) -> Result<Option<Vec<KeptRun>>, AllocError> {
    let (Some(asked), Some(answers)) = (asked.list_at("runs"), answer.list_at("runs")) else {
        return Ok(None);
    };
    let mut runs = Vec::new(alloc);
    for (asked, answer) in asked.iter().zip(answers) {
        match run_in(alloc, asked, answer)? {
            Some(run) => runs.push(run)?,
            None => return Ok(None),
        }
    }
    Ok(Some(runs))
}

fn run_in(alloc: Global, asked: &Tree, answer: &Tree) -> Result<Option<KeptRun>, AllocError> {
    let (Some(input), Some(output), Some(status)) = (
        asked.get("input"),
        answer.get("output"),
        answer.text_at("status"),
    ) else {
        return Ok(None);
    };
    Ok(Some(KeptRun {
        input: bytes_of(alloc, input)?,
        failing_gives: counts_at(alloc, asked, "failing_gives")?,
        status: String::from_str(alloc, status.as_str())?,
        kept: count_at(answer, "kept"),
        written: count_at(answer, "written"),
        output: bytes_of(alloc, output)?,
    }))
}

/// The texts that a row has, as those of the account.
fn labelled_in(alloc: Global, row: &Tree) -> Result<Vec<KeptText>, AllocError> {
    let mut texts = Vec::new(alloc);
    for text in row.list_at("texts").unwrap_or(&[]) {
        let account = Text::from_str(alloc, ACCOUNT)?;
        // The keeper in memory forgets nothing, so it doesn't ask what a text changes.
        let mark = Mark {
            kind: Kind::Calendar,
            id: 1,
            puts: true,
        };
        texts.push(KeptText::new(account, mark, bytes_of(alloc, text)?))?;
    }
    Ok(texts)
}

fn texts_in(alloc: Global, row: &Tree) -> Result<Vec<Vec<u8>>, AllocError> {
    let mut texts = Vec::new(alloc);
    for text in row.list_at("texts").unwrap_or(&[]) {
        texts.push(bytes_of(alloc, text)?)?;
    }
    Ok(texts)
}
