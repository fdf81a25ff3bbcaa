//! How a connection ends where its desk makes no more calls.
use crate::pair_desk::PairDesk;
use conn_serve::serve::serve_connection;
use io_edge::memory_clock::StillClock;
use io_edge::memory_sink::SureSink;
use io_edge::memory_source::SureSource;
use request_log::request::NoLog;
use session_doc::Site;
use spec_json::text::Text;
use std::alloc::{AllocError, Global};

/// A site with two accounts, of which the user has the first.
const CONFIGURATION: &str =
    r#"{"baseUrl":"b","accounts":[{"id":"A1","name":"One"},{"id":"A2","name":"Two"}],"users":[{"name":"ann","token":"t","accounts":["A1"]}]}"#;

/// How a connection with this input ends, how many responses were written and calls were answered, and what was written.
pub fn told(alloc: Global, input: &Text, most: u32) -> Result<Option<String>, AllocError> {
    let Ok(site) = Site::read(alloc, CONFIGURATION.as_bytes()) else {
        return Ok(None);
    };
    if site.accounts() != 2 {
        return Ok(None);
    }
    let first = Text::from_str(alloc, "A1")?;
    let second = Text::from_str(alloc, "A2")?;
    let mut desk = PairDesk::open(alloc, first, second, most)?;
    let mut source = SureSource::new(input.as_str().as_bytes().to_vec(alloc)?);
    let mut sink = SureSink::new(alloc);
    let mut clock = StillClock { moment: 0 };
    let served = serve_connection(
        alloc,
        &site,
        &mut source,
        &mut sink,
        &mut desk,
        &mut clock,
        &NoLog,
    );
    let Some(bytes) = sink.bytes() else {
        return Ok(None);
    };
    let written = String::from_utf8_lossy(alloc, bytes)?;
    let end = served.end;
    let requests = served.requests;
    let calls = served.fronts.len();
    Ok(Some(format!(in alloc; "{end:?}, {requests} responses, {calls} calls: {written:?}")?))
}
