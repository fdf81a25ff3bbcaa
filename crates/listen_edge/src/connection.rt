//! A connection over TCP, and how long its peer is waited for.
ghost use Rattle.std.specs.Prelude.{◌≤◌, length, IfOk, IfSome};
ghost use Rattle.std.specs.Io.{ReadsAtMost, WritesAtMost};

use crate::head_search::HeadSearch;
use crate::held::Held;
use io_edge::fault::Failed;
use spec_http::limits::{MAX_HEAD, PIECE};
use std::alloc::Global;
use std::io::{self, ErrorKind, Read, Write};
use std::net::{OpenStream, Shutdown};
use std::os::fd::{AsRawFd, RawFd};
use std::time::{Clock, Duration};

/// For how many milliseconds a connection stays open on which nothing comes.
const QUIET_MILLISECONDS: u64 = 5_000;

/// In how many milliseconds a head has to come from its first byte on, and a body or a response to pass beside one millisecond for each byte.
const MESSAGE_MILLISECONDS: u64 = 10_000;

/// For how many milliseconds at most a body may stop, however fast it came before.
const STOP_MILLISECONDS: u64 = 60_000;

/// For how many milliseconds what comes behind the last response is passed over.
const LINGER_MILLISECONDS: u64 = 5_000;

/// How long a worker waits for bytes at once, in milliseconds, before it looks whether anybody looks after the lobby.
const READ_SLICE_MILLISECONDS: u64 = 100;

/// The same where nobody did before.
const SHORT_SLICE_MILLISECONDS: u64 = 5;

/// How long a worker waits at once until the peer takes bytes, in milliseconds.
const WRITE_SLICE_MILLISECONDS: u64 = 10;

/// The most bytes of responses that are kept while their peer takes them slowly.
const MAX_UNSENT: usize = 1 << 24;

/// How many reads or writes a look at a connection makes at most. One that is to go on ends with one that would wait.
const MAX_CALLS: u32 = 1 << 12;

/// How many reads behind the last response a look makes at most.
const MAX_PASSED: u32 = 64;

/// What a connection waits for.
#[derive(Clone, Copy, PartialEq, Eq, Drop)]
pub(crate) enum Stage {
    /// The first byte of a message.
    Quiet,
    /// The rest of a message.
    Coming,
    /// That the peer takes the rest of a response.
    Sending,
    /// That the peer ends it.
    Lingering,
}

/// What a look at a connection came to.
#[derive(Clone, Copy, PartialEq, Eq, Drop)]
pub(crate) enum Look {
    /// It waits for the same.
    Waits,
    /// It waits for something else.
    Turned,
    /// A message has come as far as its head.
    Ready,
    /// It is over.
    Over,
}

/// A connection: its stream, the bytes that came and that no one took, and those that were given and that the peer didn't take.
#[derive(Drop)]
pub(crate) struct Connection<S> {
    stream: S,
    came: Held,
    unsent: Held,
    search: HeadSearch,
    stage: Stage,
    // The moment from which its patience counts, in milliseconds.
    since: u64,
    // How many bytes of a body or a response have passed since.
    moved: u64,
    // Whether it was given back between two messages, and may come again.
    goes_on: bool,
    // For how many milliseconds a read waits at once.
    slice: u64,
}

/// The moment, in milliseconds of a clock that never goes back; 0 where the system doesn't tell it.
pub(crate) fn moment(clock: &impl Clock) -> u64 {
    match clock.monotonic() {
        Ok(since) => since
            .as_secs()
            .saturating_mul(1000)
            .saturating_add(u64::from(since.subsec_millis())),
        Err(_) => 0,
    }
}

// Whether a call of the system is to be made again later.
fn is_for_later(error: &io::Error) -> bool {
    matches!(
        error.kind(),
        ErrorKind::WouldBlock | ErrorKind::TimedOut | ErrorKind::Interrupted
    )
}

impl<S: Read + Write + OpenStream + AsRawFd> Connection<S> {
    /// A connection that was accepted. Calls on its stream don't wait. Small responses aren't held back.
    pub(crate) fn open(alloc: Global, stream: S, now: u64) -> io::Result<Connection<S>>
    where
        S: Drop,
    {
        stream.set_nodelay(true)?;
        stream.set_write_timeout(Some(Duration::from_millis(WRITE_SLICE_MILLISECONDS)))?;
        stream.set_nonblocking(true)?;
        Ok(Connection {
            stream,
            came: Held::new(alloc),
            unsent: Held::new(alloc),
            search: HeadSearch::Within,
            stage: Stage::Quiet,
            since: now,
            moved: 0,
            goes_on: false,
            slice: 0,
        })
    }

    pub(crate) fn fd(&self) -> RawFd {
        self.stream.as_raw_fd()
    }

    pub(crate) fn stage(&self) -> Stage {
        self.stage
    }

    pub(crate) fn since(&self) -> u64 {
        self.since
    }

    fn enter(&mut self, stage: Stage, now: u64) {
        self.stage = stage;
        self.since = now;
        self.moved = 0;
    }

    /// Whether its patience is used up.
    pub(crate) fn is_late(&self, now: u64) -> bool {
        let patience = match self.stage {
            Stage::Quiet => QUIET_MILLISECONDS,
            Stage::Coming | Stage::Sending => MESSAGE_MILLISECONDS,
            Stage::Lingering => LINGER_MILLISECONDS,
        };
        now.saturating_sub(self.since) > patience.saturating_add(self.moved)
    }

    // ---- in the lobby, where no call waits

    /// Goes on with what it waits for, as far as that goes without waiting.
    pub(crate) fn look(&mut self, now: u64) -> Look {
        match self.stage {
            Stage::Quiet | Stage::Coming => self.look_for_head(now),
            Stage::Sending => self.look_for_room(now),
            Stage::Lingering => self.pass_over(),
        }
    }

    // Reads until a head is whole, or as long as one may be. What stands before the end of the input is to be answered too.
    fn look_for_head(&mut self, now: u64) -> Look {
        let mut piece = [0; PIECE];
        for _ in 0..MAX_CALLS {
            match self.stream.read(&mut piece) {
                Ok(0) if self.came.rest().is_empty() => return Look::Over,
                Ok(0) => return Look::Ready,
                Ok(count) => {
                    if self.came.add(&piece[..count]).is_err() {
                        return Look::Over;
                    }
                    if self.has_head(&piece[..count], now) {
                        return Look::Ready;
                    }
                }
                Err(error) if is_for_later(&error) => return Look::Waits,
                Err(_) => return Look::Over,
            }
        }
        Look::Over
    }

    // Whether the head is whole with these bytes, or as long as one may be.
    fn has_head(&mut self, bytes: &[u8], now: u64) -> bool {
        if self.stage == Stage::Quiet {
            self.enter(Stage::Coming, now);
        }
        self.search = self.search.behind(bytes);
        self.search == HeadSearch::Whole || self.came.rest().len() >= MAX_HEAD
    }

    // Sends what is left to send. Behind it the connection goes on, or ends.
    fn look_for_room(&mut self, now: u64) -> Look {
        for _ in 0..MAX_CALLS {
            if self.unsent.rest().is_empty() {
                return self.settle(now);
            }
            match self.send() {
                Ok(0) => return Look::Waits,
                Ok(_) => {}
                Err(_) => return Look::Over,
            }
        }
        Look::Waits
    }

    // Behind the last response that it may send now.
    fn settle(&mut self, now: u64) -> Look {
        if self.goes_on {
            self.enter(Stage::Quiet, now);
            return Look::Turned;
        }
        self.enter(Stage::Lingering, now);
        match self.stream.shutdown(Shutdown::Write) {
            Ok(()) => match self.pass_over() {
                Look::Waits => Look::Turned,
                look => look,
            },
            Err(_) => Look::Over,
        }
    }

    // Passes over what the peer still sends, so that a reset doesn't take the last response from it (RFC 9112 section 9.6).
    fn pass_over(&mut self) -> Look {
        let mut piece = [0; PIECE];
        for _ in 0..MAX_PASSED {
            match self.stream.read(&mut piece) {
                Ok(0) => return Look::Over,
                Ok(_) => {}
                Err(error) if is_for_later(&error) => return Look::Waits,
                Err(_) => return Look::Over,
            }
        }
        Look::Waits
    }

    // Sends some of what wasn't sent: nothing where the peer takes nothing now.
    fn send(&mut self) -> Result<usize, Failed> {
        let count = write_some(&mut self.stream, self.unsent.rest())?;
        self.unsent.pass(count);
        self.moved = self.moved.saturating_add(count as u64);
        Ok(count)
    }

    // ---- between the lobby and a worker

    /// Is given to a worker: calls on the stream wait for a while. Says whether that is so.
    pub(crate) fn leave_lobby(&mut self, now: u64) -> bool {
        self.goes_on = false;
        self.search = HeadSearch::Within;
        self.enter(Stage::Coming, now);
        self.stream.set_nonblocking(false).is_ok()
    }

    /// Is given back by a worker, which came to the end of its input or didn't.
    pub(crate) fn enter_lobby(&mut self, is_at_end: bool, now: u64) -> Look {
        self.goes_on = self.goes_on && is_at_end;
        if self.stream.set_nonblocking(true).is_err() {
            return Look::Over;
        }
        match self.stage {
            Stage::Sending => Look::Waits,
            Stage::Quiet if self.goes_on => Look::Waits,
            _ => self.settle(now),
        }
    }

    // ---- in the hands of a worker, where a call waits for a while

    /// Gives bytes that came before.
    pub(crate) fn take_held(&mut self, buf: &mut [u8]) -> usize
        ensures { result ≤ length buf.new }
    {
        let held = self.came.rest();
        let count = held.len().min(buf.len());
        buf[..count].copy_from_slice(&held[..count]);
        self.came.pass(count);
        count
    }

    /// Reads what comes within a while, which may be a short one. Nothing is read while a response isn't sent, which it goes on with first.
    pub(crate) fn read_some(
        &mut self,
        buf: &mut [u8],
        is_short: bool,
        now: u64,
    ) -> Result<Option<usize>, Failed>
        ensures { IfOk result (λ some. IfSome some (λ n. n ≤ length buf.new)) }
    {
        if !self.has_sent(now)? {
            return Ok(None);
        }
        self.set_slice(is_short)?;
        match self.stream.read(buf) {
            Ok(count) => {
                if self.stage == Stage::Quiet {
                    self.enter(Stage::Coming, now);
                }
                let most = now
                    .saturating_sub(self.since)
                    .saturating_add(STOP_MILLISECONDS);
                self.moved = self.moved.saturating_add(count as u64).min(most);
                Ok(Some(count))
            }
            Err(error) if is_for_later(&error) => Ok(None),
            Err(_) => Err(Failed),
        }
    }

    // For how long a read waits from now on.
    fn set_slice(&mut self, is_short: bool) -> Result<(), Failed> {
        let slice = if is_short {
            SHORT_SLICE_MILLISECONDS
        } else {
            READ_SLICE_MILLISECONDS
        };
        if slice == self.slice {
            return Ok(());
        }
        self.slice = slice;
        match self
            .stream
            .set_read_timeout(Some(Duration::from_millis(slice)))
        {
            Ok(()) => Ok(()),
            Err(_) => Err(Failed),
        }
    }

    /// Sends some of a response that isn't sent. Says whether all of it is.
    pub(crate) fn has_sent(&mut self, now: u64) -> Result<bool, Failed> {
        if self.stage != Stage::Sending {
            return Ok(true);
        }
        if !self.unsent.rest().is_empty() {
            self.send()?;
        }
        if !self.unsent.rest().is_empty() {
            return Ok(false);
        }
        self.enter(Stage::Quiet, now);
        Ok(true)
    }

    /// Whether it is given back, where others wait for a worker or don't: nothing came since the last response. It may come again then.
    pub(crate) fn rests(&mut self, others_wait: bool, now: u64) -> bool {
        self.goes_on = match self.stage {
            Stage::Quiet => others_wait || self.is_late(now),
            Stage::Sending => others_wait,
            Stage::Coming | Stage::Lingering => false,
        };
        self.goes_on
    }

    /// Sends some bytes of a response, or keeps them to be sent later, behind what wasn't sent before: none where the peer takes nothing for a while, and too much is kept.
    ///
    /// Takes memory for what it keeps.
    pub(crate) fn give(&mut self, bytes: &[u8], now: u64) -> Result<usize, Failed>
        ensures { WritesAtMost result bytes.now }
    {
        if !self.unsent.rest().is_empty() {
            if self.keep(bytes) {
                return Ok(bytes.len());
            }
            self.send()?;
            return Ok(0);
        }
        if self.stage != Stage::Sending {
            self.enter(Stage::Sending, now);
        }
        let count = write_some(&mut self.stream, bytes)?;
        self.moved = self.moved.saturating_add(count as u64);
        if count == bytes.len() {
            self.enter(Stage::Quiet, now);
            return Ok(count);
        }
        if self.keep(&bytes[count..]) {
            return Ok(bytes.len());
        }
        Ok(count)
    }

    // Keeps bytes to be sent later. Says whether they are kept.
    fn keep(&mut self, bytes: &[u8]) -> bool {
        bytes.len() <= MAX_UNSENT.saturating_sub(self.unsent.rest().len())
            && self.unsent.add(bytes).is_ok()
    }
}

// Writes some bytes: none where the peer takes nothing.
fn write_some<W: Write>(writer: &mut W, bytes: &[u8]) -> Result<usize, Failed>
    ensures { WritesAtMost result bytes.now }
{
    match writer.write(bytes) {
        Ok(0) => Err(Failed),
        Ok(count) => Ok(count),
        Err(error) if is_for_later(&error) => Ok(0),
        Err(_) => Err(Failed),
    }
}
