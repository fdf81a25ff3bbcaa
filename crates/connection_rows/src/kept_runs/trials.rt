//! The runs of a row, of `kept` or of `slot`, over a keeper in memory.
use crate::CLOCK;
use crate::connections::runs::{copied, status_name};
use crate::kept_runs::case::{ACCOUNT, KeptCase, KeptRun};
use command_line::kept::KeptCommand;
use command_line::slot::read_slot;
use io_edge::memory_opener::MemOpener;
use io_edge::memory_sink::MemSink;
use io_edge::memory_source::MemSource;
use jmapd_run::kept_status::KeptStatus;
use journal_keeper::keeper::{JournalError, Keeper};
use journal_keeper::memory_keeper::MemKeeper;
use journal_keeper::write::entry_text;
use kept_run::run::run_kept;
use kept_run::status::KeptDone;
use row_table::files::Files;
use row_table::trial::not_read;
use slot_run::run::run_slot;
use spec_history::entry::Entry;
use std::alloc::{AllocError, Global};
use time_text::object_id_text;

/// How a run ended, and what it wrote to.
#[derive(Drop)]
struct Outcome {
    done: KeptDone,
    output: MemSink,
}

/// What first came otherwise than wanted.
pub fn other_than_wanted(
    alloc: Global,
    case: KeptCase,
    files: &Files,
) -> Result<Option<String>, AllocError> {
    let KeptCase {
        words,
        texts,
        failing_calls,
        runs,
        left,
    } = case;
    let mut keeper = MemKeeper::new(alloc, texts, failing_calls, false);
    let other = other_than_each(alloc, &words, &runs, files, &mut keeper)?;
    if other.is_some() {
        return Ok(other);
    }
    other_than_left(alloc, &mut keeper, &left)
}

/// What came of the first of these runs that came otherwise.
fn other_than_each(
    alloc: Global,
    words: &[String],
    runs: &[KeptRun],
    files: &Files,
    keeper: &mut MemKeeper,
) -> Result<Option<String>, AllocError> {
    for run in runs {
        let other = other_than_run(alloc, words, run, files, keeper)?;
        if other.is_some() {
            return Ok(other);
        }
    }
    Ok(None)
}

fn other_than_run(
    alloc: Global,
    words: &[String],
    run: &KeptRun,
    files: &Files,
    keeper: &mut MemKeeper,
) -> Result<Option<String>, AllocError> {
    let Some(outcome) = outcome_of(alloc, words, run, files, keeper)? else {
        return not_read(alloc);
    };
    let status = kept_status_name(alloc, &outcome.done.status)?;
    let (kept, written) = (outcome.done.kept, outcome.done.written);
    if status.as_str() == run.status.as_str()
        && (kept, written) == (run.kept, run.written)
        && outcome.output.bytes() == Some(run.output.as_slice())
    {
        return Ok(None);
    }
    let text = outcome.output.bytes().unwrap_or_default();
    let text = String::from_utf8_lossy(alloc, text)?;
    Ok(Some(format!(in alloc; "{status}, kept {kept}, written {written}, {text:?}")?))
}

/// What comes of a run over a keeper, where these are the words of `kept` or of `slot`.
fn outcome_of(
    alloc: Global,
    words: &[String],
    run: &KeptRun,
    files: &Files,
    keeper: &mut MemKeeper,
) -> Result<Option<Outcome>, AllocError> {
    let mut opener = MemOpener::new(alloc, copied(alloc, files)?, Vec::new(alloc));
    let input = run.input.as_slice().to_vec(alloc)?;
    let mut input = MemSource::new(input, usize::MAX, Vec::new(alloc));
    let mut output = MemSink::new(alloc, run.failing_gives.as_slice().to_vec(alloc)?);
    if let Some(asked) = KeptCommand::read(alloc, words)? {
        let mut clock = CLOCK;
        let done = run_kept(
            alloc,
            asked,
            &mut opener,
            &mut input,
            &mut output,
            &mut clock,
            keeper,
        );
        return Ok(Some(Outcome { done, output }));
    }
    let Some(asked) = read_slot(alloc, words)? else {
        return Ok(None);
    };
    let done = KeptDone {
        status: run_slot(alloc, asked, &mut opener, &mut input, &mut output, keeper),
        kept: 0,
        written: 0,
    };
    Ok(Some(Outcome { done, output }))
}

/// The name of a status, with what it tells of.
fn kept_status_name(alloc: Global, status: &KeptStatus) -> Result<String, AllocError> {
    match status {
        KeptStatus::Plain(status) => status_name(alloc, *status),
        KeptStatus::KeepFault => String::from_str(alloc, "KeepFault"),
        KeptStatus::Damaged {
            account,
            place,
            text,
        } => {
            let account = account.as_str();
            let text = String::from_utf8_lossy(alloc, text)?;
            format!(in alloc; "Damaged {account} {place} {text}")
        }
        KeptStatus::ForeignJournal { account, place } => {
            let account = account.as_str();
            format!(in alloc; "ForeignJournal {account} {place}")
        }
        KeptStatus::BadJournal { account, kind, id } => {
            let account = account.as_str();
            let id = object_id_text(alloc, *kind, *id)?;
            let id = id.as_str();
            format!(in alloc; "BadJournal {account} {id}")
        }
    }
}

/// What the keeper has, where it isn't these texts. Of one with a damaged text none are wanted.
fn other_than_left(
    alloc: Global,
    keeper: &mut MemKeeper,
    left: &[Vec<u8>],
) -> Result<Option<String>, AllocError> {
    match keeper.load(ACCOUNT) {
        Ok(loaded) => other_than_texts(alloc, &loaded.kept.behind, left),
        Err(JournalError::Damaged { .. }) if left.is_empty() => Ok(None),
        Err(_) => Ok(Some(String::from_str(alloc, "not loaded")?)),
    }
}

fn other_than_texts(
    alloc: Global,
    entries: &[Entry],
    left: &[Vec<u8>],
) -> Result<Option<String>, AllocError> {
    let mut all = Vec::new(alloc);
    let mut same = entries.len() == left.len();
    for (place, entry) in entries.iter().enumerate() {
        let text = entry_text(alloc, entry)?;
        same = same && left.get(place).map(|wanted| wanted.as_slice()) == Some(text.as_slice());
        all.extend_from_slice(&text)?;
        all.push(b'\n')?;
    }
    if same {
        return Ok(None);
    }
    Ok(Some(String::from_utf8_lossy(alloc, &all)?))
}
