//! Where connections wait that need no worker.
ghost use Rattle.std.specs.Prelude.{◌≡◌};

use crate::accept_error::is_broken;
use crate::connection::{Connection, Look, Stage, moment};
use mio::unix::SourceFd;
use mio::{Events, Interest, Poll, Token};
use std::alloc::Global;
use std::collections::VecDeque;
use std::io::{self, Read, Write};
use std::mem;
use std::net::{Net, OpenListener, OpenStream};
use std::os::fd::AsRawFd;
use std::sync::{Mutex, Wait};
use std::time::{Clock, Duration};

/// The most connections that wait. One more ends the one that has waited longest and is owed nothing.
const MAX_WAITING: usize = 4096;

/// How many connections are accepted at once.
const MAX_ACCEPTS: u32 = 64;

/// How many events are looked at once.
const MAX_EVENTS: usize = 256;

/// After how many milliseconds those are ended again whose patience is used up, and for how long one waits for events at once.
const ROUND_MILLISECONDS: u64 = 100;

/// How many milliseconds pass before the next try where the system tells no events.
const PAUSE_MILLISECONDS: u64 = 10;

/// The token of the listening socket.
const LISTENER: usize = usize::MAX;

/// Where all connections of a listening socket wait that need no worker: for a whole head, for room to send the rest of a response, or for their end.
///
/// Whoever asks for a connection looks after all of them while it waits. Nobody else does.
#[derive(Drop)]
pub(crate) struct Lobby<L: OpenListener> {
    hall: Mutex<Hall<L>>,
    // Connections that workers gave back.
    back: Mutex<Vec<Connection<L::Stream>>>,
}

impl<L: OpenListener + AsRawFd + Drop> Lobby<L>
where
    L::Stream: Read + Write + OpenStream + AsRawFd + Drop,
{
    /// The lobby of a listening socket, whose `accept` doesn't wait from now on. Takes memory for events.
    pub(crate) fn open(alloc: Global, net: &impl Net, listener: L) -> io::Result<Lobby<L>> {
        Ok(Lobby {
            hall: Mutex::new(Hall::open(alloc, net, listener)?),
            back: Mutex::new(Vec::new(alloc)),
        })
    }

    /// Looks after the lobby for a while, and gives a connection of which a head has come, where there is one. It waits for others that look after it.
    pub(crate) fn next<R: Wait + Clock>(&self, runtime: &R) -> Next<L::Stream> {
        let mut hall = self.hall.lock(runtime);
        hall.seat_all(self.given_back(runtime));
        hall.next(runtime)
    }

    /// Looks after the lobby for a moment where nobody else does. Says whether a connection waits for a worker then.
    pub(crate) fn look_after<R: Wait + Clock>(&self, runtime: &R) -> bool {
        match self.hall.try_lock() {
            Some(mut hall) => {
                hall.seat_all(self.given_back(runtime));
                hall.go_round(runtime, 0);
                !hall.ready.is_empty()
            }
            None => false,
        }
    }

    /// Whether nobody looks after the lobby now: no worker is free.
    pub(crate) fn is_unattended(&self) -> bool {
        self.hall.try_lock().is_some()
    }

    /// Takes a connection back from a worker. Takes memory for it: where there is none, the connection ends.
    pub(crate) fn take_back<R: Wait>(&self, connection: Connection<L::Stream>, runtime: &R) {
        let _ = self.back.lock(runtime).push(connection);
    }

    // The connections that were given back since.
    fn given_back<R: Wait>(&self, runtime: &R) -> Vec<Connection<L::Stream>> {
        let mut back = self.back.lock(runtime);
        let none = Vec::new(*back.allocator());
        mem::replace(&mut *back, none)
    }
}

/// What a look into the lobby gives.
pub(crate) enum Next<S> {
    /// A connection of which a head has come.
    Ready(Connection<S>),
    /// None yet.
    NoneYet,
    /// The listening socket is of no more use.
    Broken,
}

// What only one at a time looks after.
#[derive(Drop)]
struct Hall<L: OpenListener> {
    alloc: Global,
    listener: L,
    poll: Poll,
    events: Events,
    // Those that wait for their peers, each at the place that its token names.
    seats: Vec<Option<Connection<L::Stream>>>,
    // Those that wait for a worker, the first one first.
    ready: VecDeque<Connection<L::Stream>>,
    // The moment at which late ones were ended last, in milliseconds.
    swept: u64,
    door: Door,
}

// What the last tries to accept came to.
#[derive(Clone, Copy, PartialEq, Eq, Drop)]
enum Door {
    // Nobody more can be accepted now.
    Clear,
    // There may be more.
    Crowded,
    // The listening socket is of no more use.
    Broken,
}

impl<L: OpenListener + AsRawFd + Drop> Hall<L>
where
    L::Stream: Read + Write + OpenStream + AsRawFd + Drop,
{
    fn open(alloc: Global, net: &impl Net, listener: L) -> io::Result<Hall<L>> {
        let poll = Poll::new(net)?;
        listener.set_nonblocking(true)?;
        poll.registry().register(
            &mut SourceFd(&listener.as_raw_fd()),
            Token(LISTENER),
            Interest::READABLE,
        )?;
        Ok(Hall {
            alloc,
            listener,
            poll,
            events: Events::with_capacity(alloc, MAX_EVENTS)?,
            seats: Vec::new(alloc),
            ready: VecDeque::new(alloc),
            swept: 0,
            door: Door::Crowded,
        })
    }

    fn next<R: Clock>(&mut self, runtime: &R) -> Next<L::Stream> {
        if self.ready.is_empty() {
            self.go_round(runtime, ROUND_MILLISECONDS);
        }
        match self.ready.pop_front() {
            Some(connection) => self.hand_over(connection, moment(runtime)),
            None if self.door == Door::Broken => Next::Broken,
            None => Next::NoneYet,
        }
    }

    fn hand_over(&mut self, mut connection: Connection<L::Stream>, now: u64) -> Next<L::Stream> {
        if connection.leave_lobby(now) {
            Next::Ready(connection)
        } else {
            Next::NoneYet
        }
    }

    // Accepts who came, waits for events for so long at most, and ends those that are late.
    fn go_round<R: Clock>(&mut self, runtime: &R, milliseconds: u64) {
        self.door = self.accept_all(moment(runtime));
        let wait = if self.ready.is_empty() && self.door == Door::Clear {
            milliseconds
        } else {
            0
        };
        let waited = self
            .poll
            .poll(&mut self.events, Some(Duration::from_millis(wait)));
        if waited.is_err() {
            runtime.sleep(Duration::from_millis(PAUSE_MILLISECONDS));
        }
        let now = moment(runtime);
        self.look_at_events(now);
        if now.saturating_sub(self.swept) >= ROUND_MILLISECONDS {
            self.swept = now;
            self.end_late(now);
        }
    }

    // Accepts those who came, a bounded number of them.
    fn accept_all(&mut self, now: u64) -> Door {
        for _ in 0..MAX_ACCEPTS {
            match self.listener.accept() {
                Ok((stream, _)) => {
                    if let Ok(connection) = Connection::open(self.alloc, stream, now) {
                        self.look_at(connection, now);
                    }
                }
                Err(error) if is_broken(&error) => return Door::Broken,
                Err(error) if is_short_of_files(&error) && self.end_oldest() => {}
                Err(_) => return Door::Clear,
            }
        }
        Door::Crowded
    }

    fn look_at_events(&mut self, now: u64) {
        for at in 0..MAX_EVENTS {
            let Some(event) = self.events.iter().nth(at) else {
                return;
            };
            let Token(place) = event.token();
            self.look_at_seat(place, now);
        }
    }

    // Looks at the connection that has this place.
    fn look_at_seat(&mut self, place: usize, now: u64) {
        let Some(seat) = self.seats.get_mut(place) else {
            return;
        };
        let Some(mut connection) = seat.take() else {
            return;
        };
        match connection.look(now) {
            Look::Waits => *seat = Some(connection),
            Look::Turned => {
                let kept = self.poll.registry().reregister(
                    &mut SourceFd(&connection.fd()),
                    Token(place),
                    interest(connection.stage()),
                );
                if kept.is_ok() {
                    *seat = Some(connection);
                }
            }
            Look::Ready => {
                let left = self
                    .poll
                    .registry()
                    .deregister(&mut SourceFd(&connection.fd()));
                if left.is_ok() {
                    let _ = self.ready.push_back(connection);
                }
            }
            Look::Over => {}
        }
    }

    // Looks at a connection that has no place yet.
    fn look_at(&mut self, mut connection: Connection<L::Stream>, now: u64) {
        match connection.look(now) {
            Look::Waits | Look::Turned => self.seat(connection),
            Look::Ready => {
                let _ = self.ready.push_back(connection);
            }
            Look::Over => {}
        }
    }

    // Gives each of these a place.
    fn seat_all(&mut self, connections: Vec<Connection<L::Stream>>) {
        for connection in connections {
            self.seat(connection);
        }
    }

    // Gives a connection a place, from which it is looked at once something changes, or at once where something has come. Where there is none it ends.
    fn seat(&mut self, connection: Connection<L::Stream>) {
        let Some(place) = self.free_place() else {
            return;
        };
        let kept = self.poll.registry().register(
            &mut SourceFd(&connection.fd()),
            Token(place),
            interest(connection.stage()),
        );
        if kept.is_err() {
            return;
        }
        if let Some(seat) = self.seats.get_mut(place) {
            *seat = Some(connection);
        }
    }

    // A place that nobody has.
    fn free_place(&mut self) -> Option<usize> {
        if let Some(place) = self.seats.iter().position(|seat| seat.is_none()) {
            return Some(place);
        }
        let place = self.seats.len();
        if place < MAX_WAITING && self.seats.push(None).is_ok() {
            return Some(place);
        }
        self.end_oldest();
        self.seats.iter().position(|seat| seat.is_none())
    }

    // Ends those whose patience is used up.
    fn end_late(&mut self, now: u64) {
        for seat in self.seats.iter_mut() {
            if let Some(connection) = seat
                && connection.is_late(now)
            {
                *seat = None;
            }
        }
    }

    // Ends the one that has waited longest of those that aren't owed a response. Says whether there was one.
    fn end_oldest(&mut self) -> bool {
        let mut oldest = None;
        let mut since = u64::MAX;
        for (place, seat) in self.seats.iter().enumerate() {
            if let Some(connection) = seat
                && connection.stage() != Stage::Sending
                && connection.since() < since
            {
                since = connection.since();
                oldest = Some(place);
            }
        }
        let Some(place) = oldest else {
            return false;
        };
        match self.seats.get_mut(place) {
            Some(seat) => {
                *seat = None;
                true
            }
            None => false,
        }
    }
}

// What a connection that waits so is looked at for.
fn interest(stage: Stage) -> Interest {
    match stage {
        Stage::Sending => Interest::WRITABLE,
        Stage::Quiet | Stage::Coming | Stage::Lingering => Interest::READABLE,
    }
}

// Whether no more files can be opened (ENFILE, EMFILE).
fn is_short_of_files(error: &io::Error) -> bool {
    matches!(error.raw_os_error(), Some(23 | 24))
}
