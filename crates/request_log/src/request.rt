//! What is told of requests.

use spec_json::tree::Tree;

/// A request that was answered.
#[derive(Clone, Copy)]
pub struct AnsweredRequest<'a> {
    /// The name of the user whose token it shows.
    pub user: Option<&'a str>,
    /// The status of its response (RFC 9110 section 15).
    pub status: u16,
    /// The response object of a JMAP request (RFC 8620 section 3.4), or the problem that refuses it (section 3.6.1).
    pub reply: Option<&'a Tree>,
    /// How many bytes its content has.
    pub taken: usize,
    /// How many bytes its response has.
    pub given: usize,
    /// When it had come, in microseconds of the log's own clock.
    pub begun: u64,
}

/// Who is told of requests. Nothing that contracts see changes by that, and it takes no memory that it keeps.
pub trait RequestLog {
    /// The moment, in microseconds of a clock that never goes back, where requests are told at all.
    fn begin(&self) -> Option<u64>;

    /// Tells of a request. It doesn't wait until somebody has read of it.
    fn tell(&self, request: &AnsweredRequest<'_>);
}

/// Nobody.
#[derive(Drop)]
pub struct NoLog;

impl RequestLog for NoLog {
    fn begin(&self) -> Option<u64> {
        None
    }

    fn tell(&self, _request: &AnsweredRequest<'_>) {}
}
