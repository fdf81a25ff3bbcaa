//! A call that asks for a state, and what is noted of its reply.
ghost use Rattle.std.specs.Prelude.{◌≡◌, ◌<◌, IfOk, OnOk, option_map};
ghost use Rattle.spec_batch.specs.Chain.{Called};
ghost use Rattle.spec_json.specs.TreeData.{data_of};
ghost use Rattle.spec_push.specs.StateChanges.{is_told, news_in, once_told, state_call, with_news};
ghost use Rattle.state_watch.specs.Looking.{IsSeen};

use crate::change::put_state;
use spec_batch::desk::{Desk, DeskError};
use spec_calls::call::{Asks, Call, GetArguments, Reply};
use spec_history::entry::Kind;
use spec_json::lists::{Pairs, Texts};
use spec_json::text::Text;
use spec_json::tree::TreeObject;
use spec_push::watched::Watched;
use spec_time::moment::Moment;
use std::alloc::{AllocError, Global};

/// Looks at one state: puts it into `changed` where it is news, and notes that it was told.
///
/// At an error that comes behind the call, the call stands. Takes memory for the reply and the state.
pub(crate) fn glance<D: Desk>(
    alloc: Global,
    watched: &mut Watched,
    desk: &mut D,
    moment: Moment,
    changed: &mut TreeObject,
) -> Result<(), DeskError>
    requires { watched.old.account < (D.shown desk.old).accounts }
    ensures { IsSeen moment watched.old watched.new changed.old changed.new (D.shown desk.old) (D.shown desk.new) result }
{
    let reply = match ask(alloc, watched.account, watched.kind, desk, moment) {
        Ok(reply) => reply,
        Err(error) => return Err(error),
    };
    match note(alloc, watched, reply, changed) {
        Ok(()) => Ok(()),
        Err(_) => Err(DeskError::NoMemory),
    }
}

// Asks for the state of a type in an account.
fn ask<D: Desk>(
    alloc: Global,
    account: u32,
    kind: Kind,
    desk: &mut D,
    moment: Moment,
) -> Result<Reply, DeskError>
    requires { account < (D.shown desk.old).accounts }
    ensures { Called (D.shown desk.old) (D.shown desk.new) account (state_call kind) moment result }
{
    desk.call(account, &state_call(alloc, kind), moment)
}

// The call that asks for the state of a type.
fn state_call(alloc: Global, kind: Kind) -> Call
    ensures { result ≡ state_call kind }
{
    Call {
        created: Pairs::new(Vec::new(alloc)),
        asks: Asks::Get(GetArguments {
            kind,
            ids: Some(Texts::new(Vec::new(alloc))),
            properties: None,
        }),
    }
}

// Notes what a reply shows.
fn note(
    alloc: Global,
    watched: &mut Watched,
    reply: Reply,
    changed: &mut TreeObject,
) -> Result<(), AllocError>
    ensures watched { OnOk result (watched.new ≡ once_told watched.old reply) }
    ensures changed { OnOk result (changed.new ≡ with_news watched.old reply changed.old) }
{
    let place = reply.place;
    if let Some(state) = news_in(watched, reply) {
        put_state(alloc, changed, watched, &state)?;
        watched.told = Some(state);
    }
    watched.place = Some(place);
    Ok(())
}

// The state that a reply shows, where it isn't the one that was told last.
fn news_in(watched: &Watched, reply: Reply) -> Option<Text>
    ensures { result ≡ news_in watched.now reply }
{
    let state = reply.arguments.into_value("state")?.into_text()?;
    if is_told(watched, &state) {
        return None;
    }
    Some(state)
}

fn is_told(watched: &Watched, state: &Text) -> bool
    ensures { result ≡ is_told watched.now state.now }
{
    match &watched.told {
        Some(told) => told.as_str() == state.as_str(),
        None => false,
    }
}
