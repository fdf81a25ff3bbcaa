//! One turn of a socket.
ghost use Rattle.std.specs.Prelude.{◌<◌, ◌≤◌, ◌+◌, All, length, option_map};
ghost use Rattle.spec_sockets.specs.declared.served.TheConstants.{MAX_LOOK_CALLS};
ghost use Rattle.ws_serve.specs.Turning.{TakesTurn, IsLookHad, IsTextHad};

use crate::push::Push;
use crate::reply::{TextAnswer, ws_reply};
use io_edge::clock::Clock;
use spec_batch::desk::{Desk, DeskError, Front};
use spec_core::user::User;
use spec_json::text::Text;
use spec_time::moment::Moment;
use state_watch::watch::Looked;
use std::alloc::Global;

/// What a turn sends.
#[derive(Drop)]
pub(crate) enum Said {
    /// Nothing.
    Nothing,
    /// The reply to a text.
    Reply(Vec<u8>),
    /// The text of a `StateChange`.
    Change(Vec<u8>),
}

/// The turn for a text, or a look at states where there is none, at the moment that the clock gives. Takes memory for what it sends.
pub(crate) fn have_turn<D: Desk, C: Clock>(
    alloc: Global,
    text: Option<Text>,
    user: &User,
    desk: &mut D,
    clock: &mut C,
    fronts: &mut Vec<Front>,
    push: &mut Push,
) -> Result<Said, DeskError>
    requires accounts { All (λ g. g.account < (D.shown desk.old).accounts) user.now.grants }
    requires watched { All (λ w. w.account < (D.shown desk.old).accounts) push.old.watch }
    requires calls { push.old.calls + length push.old.watch ≤ MAX_LOOK_CALLS }
    ensures { TakesTurn user.now text push.old push.new (C.moments clock.old) (C.moments clock.new) fronts.old.items fronts.new.items (D.shown desk.old) (D.shown desk.new) result }
{
    let moment = Moment::clamped(clock.now());
    match text {
        Some(text) => answer(alloc, &text, user, desk, moment, fronts, push),
        None => look(alloc, desk, moment, push),
    }
}

fn answer<D: Desk>(
    alloc: Global,
    text: &Text,
    user: &User,
    desk: &mut D,
    moment: Moment,
    fronts: &mut Vec<Front>,
    push: &mut Push,
) -> Result<Said, DeskError>
    requires { All (λ g. g.account < (D.shown desk.old).accounts) user.now.grants }
    ensures { IsTextHad moment push.old push.new user.now text.now fronts.old.items fronts.new.items (D.shown desk.old) (D.shown desk.new) result }
{
    match ws_reply(alloc, text.as_str().as_bytes(), user, desk, moment, fronts) {
        Ok(TextAnswer::Reply(reply)) => {
            push.is_due = push.watch.len() > 0;
            Ok(Said::Reply(reply))
        }
        Ok(TextAnswer::Switch(switch)) => match push.switch(alloc, user, switch) {
            Ok(()) => Ok(Said::Nothing),
            Err(_) => Err(DeskError::NoMemory),
        },
        Err(error) => Err(error),
    }
}

fn look<D: Desk>(
    alloc: Global,
    desk: &mut D,
    moment: Moment,
    push: &mut Push,
) -> Result<Said, DeskError>
    requires watched { All (λ w. w.account < (D.shown desk.old).accounts) push.old.watch }
    requires calls { push.old.calls + length push.old.watch ≤ MAX_LOOK_CALLS }
    ensures { IsLookHad moment push.old push.new (D.shown desk.old) (D.shown desk.new) result }
{
    push.is_due = false;
    match push.watch.look(alloc, desk, moment) {
        Ok(Looked { told, calls }) => {
            push.calls += calls as u64;
            match told {
                Some(text) => Ok(Said::Change(text)),
                None => Ok(Said::Nothing),
            }
        }
        Err(error) => Err(error),
    }
}
