//! States that are watched, and looks at them.
ghost use Rattle.std.specs.Prelude.{◌≡◌, ◌<◌, ◌++◌, [], All, IfOk, OnOk, length};
ghost use Rattle.spec_push.specs.Watching.{watched_anew, watched_anew_if, watched_in, watched_for};
ghost use Rattle.state_watch.specs.Looking.{IsTold, LooksSo, SeesSo};

use crate::change::change_text;
use crate::glance::glance;
use spec_batch::desk::{Desk, DeskError};
use spec_core::user::{Grant, User};
use spec_history::entry::Kind;
use spec_json::tree::TreeObject;
use spec_push::data_types::DataTypes;
use spec_push::watched::Watched;
use spec_time::moment::Moment;
use std::alloc::{AllocError, Global};
use std::marker::Model;

/// States that are watched for a client. Contracts see each of them, with the state that the client was told last.
#[derive(Drop)]
pub struct Watch {
    states: Vec<Watched>,
}

impl Model for Watch {
    ghost use Rattle.std.specs.Prelude.{List};
    ghost use Rattle.spec_push.specs.declared.watched.Watched.{Watched};

    ghost Value = { List Watched };

    ghost view = { λ a. a.states.items };
}

/// What a look came to.
#[derive(Drop)]
pub struct Looked {
    /// The text of the `StateChange` that is to be sent, where something is news.
    pub told: Option<Vec<u8>>,
    /// The number of calls that were made.
    pub calls: usize,
}

impl Watch {
    /// A watch of nothing. Takes no memory.
    pub fn of_nothing(alloc: Global) -> Watch
        ensures { result ≡ [] }
    {
        Watch {
            states: Vec::new(alloc),
        }
    }

    /// A watch of these types in all accounts of a user, of which nothing was told yet. Takes memory for them.
    pub fn of(alloc: Global, user: &User, types: DataTypes) -> Result<Watch, AllocError>
        ensures { IfOk result (λ watch. watch ≡ watched_for user.now types) }
    {
        let mut states = Vec::new(alloc);
        for grant in user.grants.items() {
            watch_account(&mut states, grant, types)?;
        }
        Ok(Watch { states })
    }

    /// The number of states that are watched, which is the most calls that a look makes. Takes no memory.
    pub fn len(&self) -> usize
        ensures { result ≡ length self.now }
    {
        self.states.len()
    }

    /// Looks at states, and tells what is news: at all of them the first time, and then at those of the accounts whose history has grown since, as far as that is seen without a call.
    ///
    /// At each error the calls that were answered stand. Takes memory for a reply at a time, and for what is told.
    pub fn look<D: Desk>(
        &mut self,
        alloc: Global,
        desk: &mut D,
        moment: Moment,
    ) -> Result<Looked, DeskError>
        requires { All (λ w. w.account < (D.shown desk.old).accounts) self.old }
        ensures { LooksSo moment self.old self.new (D.shown desk.old) (D.shown desk.new) result }
    {
        let seen = match see_all(alloc, &mut self.states, desk, moment) {
            Ok(seen) => seen,
            Err(error) => return Err(error),
        };
        tell(alloc, seen)
    }
}

/// What calls for states showed.
#[derive(Drop)]
struct Seen {
    /// The states that are news, by account and type.
    changed: TreeObject,
    /// The number of calls.
    calls: usize,
}

// Looks at the states of which there may be news.
fn see_all<D: Desk>(
    alloc: Global,
    states: &mut Vec<Watched>,
    desk: &mut D,
    moment: Moment,
) -> Result<Seen, DeskError>
    requires { All (λ w. w.account < (D.shown desk.old).accounts) states.old.items }
    ensures { SeesSo moment states.old.items states.new.items (D.shown desk.old) (D.shown desk.new) result }
{
    let mut changed = TreeObject::new(Vec::new(alloc));
    let mut calls = 0;
    for i in 0..states.len() {
        if !may_be_news(&states[i], desk) {
            continue;
        }
        match glance(alloc, &mut states[i], desk, moment, &mut changed) {
            Ok(()) => calls += 1,
            Err(error) => return Err(error),
        }
    }
    Ok(Seen { changed, calls })
}

// What is to be told of what was seen.
fn tell(alloc: Global, seen: Seen) -> Result<Looked, DeskError>
    ensures { IsTold seen result }
{
    let Seen { changed, calls } = seen;
    match change_text(alloc, changed) {
        Ok(told) => Ok(Looked { told, calls }),
        Err(_) => Err(DeskError::NoMemory),
    }
}

// Has states of an account watched. Takes memory for them.
fn watch_account(
    states: &mut Vec<Watched>,
    grant: &Grant,
    types: DataTypes,
) -> Result<(), AllocError>
    ensures { OnOk result (states.new.items ≡ states.old.items ++ watched_in types grant.now) }
{
    watch_if(states, types.calendars, grant, Kind::Calendar)?;
    watch_if(states, types.events, grant, Kind::Event)
}

fn watch_if(
    states: &mut Vec<Watched>,
    wanted: bool,
    grant: &Grant,
    kind: Kind,
) -> Result<(), AllocError>
    ensures { OnOk result (states.new.items ≡ states.old.items ++ watched_anew_if wanted grant.now kind) }
{
    if wanted {
        states.push(watched_anew(grant, kind)?)?;
    }
    Ok(())
}

fn watched_anew(grant: &Grant, kind: Kind) -> Result<Watched, AllocError>
    ensures { IfOk result (λ watched. watched ≡ watched_anew grant.now kind) }
{
    Ok(Watched {
        account: grant.account,
        id: grant.id.copy()?,
        kind,
        told: None,
        place: None,
    })
}

// Whether the history of a state's account may have grown since the state was last looked at, or the state never was.
fn may_be_news<D: Desk>(watched: &Watched, desk: &D) -> bool {
    watched.place != Some(desk.place_now(watched.account))
}
