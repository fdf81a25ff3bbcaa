//! What the address of a request for a stream of events asks for.
ghost use Rattle.std.specs.Prelude.{◌≡◌, IfErr, IfOk, Err, Ok, ◌⊎◌};
ghost use Rattle.spec_http.specs.Messages.{path_of};
ghost use Rattle.event_source.specs.StreamQueries.{asked_by_parameters, close_asked, close_parameter, RefusesQuery, stream_asked, interval_for, ping_parameter, query_of, types_asked, types_parameter};
ghost use Rattle.event_source.specs.declared.query.StreamQueryError.TheVariants.{NoMemory};

use crate::parameters::{Parameter, has_name, only_value, parameters_of};
use spec_push::data_types::DataTypes;
use std::alloc::{AllocError, Global};
use time_text::read_number;

/// The least interval of pings, in seconds (RFC 8620 section 7.3).
pub const MIN_PING: u64 = 30;

/// The greatest interval of pings, in seconds.
pub const MAX_PING: u64 = 900;

/// Whether a stream ends behind the first change that is told on it (RFC 8620 section 7.3).
#[derive(Clone, Copy, Debug, PartialEq, Eq, Drop)]
pub enum CloseAfter {
    /// It does.
    State,
    /// It goes on.
    Never,
}

/// What a client asks for of a stream of events (RFC 8620 section 7.3).
#[derive(Clone, Copy, Debug, PartialEq, Eq, Drop)]
pub struct StreamQuery {
    /// Of which types it is told changes.
    pub types: DataTypes,
    /// Whether the stream ends behind the first of them.
    pub close_after: CloseAfter,
    /// After how many seconds without an event it is sent a ping, if it is sent any: `MIN_PING` to `MAX_PING`.
    pub ping: Option<u64>,
}

/// The parameters of a query that asks for events.
#[derive(Clone, Copy, Debug, PartialEq, Eq, Drop)]
pub enum QueryParameter {
    /// `types`.
    Types,
    /// `closeafter`.
    CloseAfter,
    /// `ping`.
    Ping,
}

impl QueryParameter {
    /// The parameter's name.
    pub fn name(self) -> &'static str {
        match self {
            QueryParameter::Types => "types",
            QueryParameter::CloseAfter => "closeafter",
            QueryParameter::Ping => "ping",
        }
    }
}

/// What is wrong with a parameter.
#[derive(Clone, Copy, Debug, PartialEq, Eq, Drop)]
pub enum Flaw {
    /// It isn't there.
    Missing,
    /// It is there more than once.
    Repeated,
    /// Its value is none that it may have.
    Unknown,
}

impl Flaw {
    /// The flaw in words that stand behind the parameter's name.
    pub fn words(self) -> &'static str {
        match self {
            Flaw::Missing => "is missing",
            Flaw::Repeated => "is given more than once",
            Flaw::Unknown => "has no value that it may have",
        }
    }
}

/// Why a query is refused: the first parameter that is bad.
#[derive(Clone, Copy, Debug, PartialEq, Eq, Drop)]
pub struct QueryRefusal {
    /// The parameter.
    pub parameter: QueryParameter,
    /// What is wrong with it.
    pub flaw: Flaw,
}

/// Why nothing is asked for.
#[derive(Clone, Copy, Debug, PartialEq, Eq, Drop)]
pub enum StreamQueryError {
    /// The query is refused.
    Refused(QueryRefusal),
    /// Out of memory.
    NoMemory,
}

impl From<AllocError> for StreamQueryError {
    ghost from_gives = { λ _ error. error ≡ NoMemory };

    fn from(_: AllocError) -> Self {
        StreamQueryError::NoMemory
    }
}

/// The path of a target, which a `?` ends, and the query behind it (RFC 9112 section 3.2). Takes no memory.
pub fn split_target(target: &[u8]) -> (&[u8], &[u8])
    ensures path { result.0.now ≡ path_of target.now }
    ensures query { result.1.now ≡ query_of target.now }
{
    for i in 0..target.len() {
        if target[i] == b'?' {
            return (&target[..i], &target[i + 1..]);
        }
    }
    (target, b"")
}

/// What a query asks for (RFC 8620 section 7.3). Takes memory for its parameters until it returns.
///
/// Each parameter has to be there once, in any order; others are passed over. `types` is `*` or names between commas, of which those that this server hasn't are passed over;
/// `closeafter` is `state` or `no`; `ping` is a number of seconds, which is brought into `MIN_PING` to `MAX_PING`, or 0 for none.
pub fn read_query(alloc: Global, query: &[u8]) -> Result<StreamQuery, StreamQueryError>
    ensures ok { IfOk result (λ asked. stream_asked query.now ≡ Ok asked) }
    ensures err { IfErr result (λ error. RefusesQuery error (stream_asked query.now)) }
{
    let parameters = parameters_of(alloc, query)?;
    match read_parameters(&parameters) {
        Ok(asked) => Ok(asked),
        Err(refusal) => Err(StreamQueryError::Refused(refusal)),
    }
}

fn read_parameters(parameters: &[Parameter]) -> Result<StreamQuery, QueryRefusal>
    ensures { result ≡ asked_by_parameters parameters.now }
{
    let types = types_parameter(parameters)?;
    let close_after = close_parameter(parameters)?;
    let ping = ping_parameter(parameters)?;
    Ok(StreamQuery {
        types,
        close_after,
        ping,
    })
}

fn refusal(parameter: QueryParameter, flaw: Flaw) -> QueryRefusal
    ensures { result ≡ record { parameter = parameter; flaw = flaw } }
{
    QueryRefusal { parameter, flaw }
}

fn types_parameter(parameters: &[Parameter]) -> Result<DataTypes, QueryRefusal>
    ensures { result ≡ types_parameter parameters.now }
{
    match only_value(parameters, "types") {
        Ok(value) => Ok(types_asked(value)),
        Err(flaw) => Err(refusal(QueryParameter::Types, flaw)),
    }
}

fn close_parameter(parameters: &[Parameter]) -> Result<CloseAfter, QueryRefusal>
    ensures { result ≡ close_parameter parameters.now }
{
    match only_value(parameters, "closeafter") {
        Ok(value) => match close_asked(value) {
            Some(close_after) => Ok(close_after),
            None => Err(refusal(QueryParameter::CloseAfter, Flaw::Unknown)),
        },
        Err(flaw) => Err(refusal(QueryParameter::CloseAfter, flaw)),
    }
}

fn ping_parameter(parameters: &[Parameter]) -> Result<Option<u64>, QueryRefusal>
    ensures { result ≡ ping_parameter parameters.now }
{
    match only_value(parameters, "ping") {
        Ok(value) => match read_number(value.as_bytes()) {
            Some(seconds) => Ok(interval_for(seconds)),
            None => Err(refusal(QueryParameter::Ping, Flaw::Unknown)),
        },
        Err(flaw) => Err(refusal(QueryParameter::Ping, flaw)),
    }
}

// The types that a value names.
fn types_asked(value: &str) -> DataTypes
    ensures { result ≡ types_asked value.now }
{
    if value == "*" {
        return DataTypes {
            calendars: true,
            events: true,
        };
    }
    DataTypes {
        calendars: has_name(value, "Calendar"),
        events: has_name(value, "CalendarEvent"),
    }
}

fn close_asked(value: &str) -> Option<CloseAfter>
    ensures { result ≡ close_asked value.now }
{
    if value == "state" {
        Some(CloseAfter::State)
    } else if value == "no" {
        Some(CloseAfter::Never)
    } else {
        None
    }
}

// The interval of pings for so many seconds.
fn interval_for(seconds: u64) -> Option<u64>
    ensures { result ≡ interval_for seconds }
{
    if seconds == 0 {
        None
    } else {
        Some(seconds.clamp(MIN_PING, MAX_PING))
    }
}
