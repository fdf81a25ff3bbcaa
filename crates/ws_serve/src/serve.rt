//! A socket.
ghost use Rattle.std.specs.Prelude.{◌≡◌, ◌<◌, ◌≤◌, [], All, Err, IsOk, OnErr, OnOk, length};
ghost use Rattle.io_edge.specs.Outside.{Rose};
ghost use Rattle.spec_sockets.specs.Links.{SendsTexts};
ghost use Rattle.spec_sockets.specs.Serving.{ServesSocket};
ghost use Rattle.ws_serve.specs.Ending.{IsNextText, end_of_link};
ghost use Rattle.ws_serve.specs.Turning.{replies_said, texts_said};

use crate::push::Push;
use crate::turn::{Said, have_turn};
use io_edge::clock::Clock;
use spec_batch::desk::{Desk, Front};
use spec_core::user::User;
use spec_json::text::Text;
use spec_sockets::served::{MAX_TEXTS, MAX_TURNS, WsEnd, WsServed, end_of_desk};
use std::alloc::Global;
use ws_edge::link::{LinkError, WsIn, WsLink};

/// Answers the texts of a link for a user, in order (RFC 8887 section 4.3), at most 10,000, and tells the changes that they ask for (section 4.3.5).
///
/// Where changes are to be told, states are looked at behind each text, and each time that the link is quiet. The clock is read once for each text and each look. Takes memory for
/// one text and its reply at a time, for the states that are watched, and for the fronts. It may wait, as the link does and the desk.
pub fn serve_socket<L: WsLink, D: Desk, C: Clock>(
    alloc: Global,
    user: &User,
    link: &mut L,
    desk: &mut D,
    clock: &mut C,
) -> WsServed
    requires { All (λ g. g.account < (D.shown desk.old).accounts) user.now.grants }
    ensures { ServesSocket user.now MAX_TEXTS
        (record { link = L.shown link.old; clock = C.moments clock.old; desk = D.shown desk.old })
        (record { link = L.shown link.new; clock = C.moments clock.new; desk = D.shown desk.new }) result }
{
    serve_at_most(alloc, MAX_TEXTS, user, link, desk, clock)
}

fn serve_at_most<L: WsLink, D: Desk, C: Clock>(
    alloc: Global,
    most: u64,
    user: &User,
    link: &mut L,
    desk: &mut D,
    clock: &mut C,
) -> WsServed
    requires { All (λ g. g.account < (D.shown desk.old).accounts) user.now.grants }
    ensures { ServesSocket user.now most
        (record { link = L.shown link.old; clock = C.moments clock.old; desk = D.shown desk.old })
        (record { link = L.shown link.new; clock = C.moments clock.new; desk = D.shown desk.new }) result }
{
    let mut fronts = Vec::new(alloc);
    let mut push = Push::off(alloc);
    let mut replies = 0;
    for _turn in 0..MAX_TURNS {
        if replies >= most || push.is_spent() {
            return served(fronts, replies, WsEnd::Quota);
        }
        let text = match next_text(link, push.is_due) {
            Ok(text) => text,
            Err(end) => return served(fronts, replies, end),
        };
        let said = match have_turn(alloc, text, user, desk, clock, &mut fronts, &mut push) {
            Ok(said) => said,
            Err(error) => return served(fronts, replies, end_of_desk(error)),
        };
        match send(link, &said) {
            Ok(()) => {}
            Err(error) => return served(fronts, replies, end_of_link(error)),
        }
        replies += replies_of(&said);
    }
    served(fronts, replies, WsEnd::Quota)
}

// The next text of a link, where one comes and no look is due.
fn next_text<L: WsLink>(link: &mut L, is_look_due: bool) -> Result<Option<Text>, WsEnd>
    ensures next { IsNextText (L.shown link.old) (L.shown link.new) result }
    ensures sent { (L.shown link.new).sent ≡ (L.shown link.old).sent }
    ensures later { (L.shown link.old).faults ≤ (L.shown link.new).faults }
{
    if is_look_due {
        return Ok(None);
    }
    match link.next() {
        Ok(WsIn::Text(text)) => Ok(Some(text)),
        Ok(WsIn::Quiet) => Ok(None),
        Ok(WsIn::Binary) => Err(WsEnd::Binary),
        Ok(WsIn::Closed) => Err(WsEnd::Closed),
        Err(error) => Err(end_of_link(error)),
    }
}

// Sends what a turn says, if it says something.
fn send<L: WsLink>(link: &mut L, said: &Said) -> Result<(), LinkError>
    ensures ok { OnOk result (SendsTexts (L.shown link.old).sent (L.shown link.new).sent (texts_said said.now)) }
    ensures err { OnErr result ((L.shown link.new).sent ≡ (L.shown link.old).sent) }
    ensures silent { texts_said said.now ≡ [] → IsOk result }
    ensures left { (L.shown link.new).left ≡ (L.shown link.old).left }
    ensures later { (L.shown link.old).faults ≤ (L.shown link.new).faults }
    ensures failed { result ≡ Err LinkError.Failed → Rose (L.shown link.old).faults (L.shown link.new).faults }
{
    match said {
        Said::Nothing => Ok(()),
        Said::Reply(text) => link.send(text),
        Said::Change(text) => link.send(text),
    }
}

// How many replies to texts a turn sends.
fn replies_of(said: &Said) -> u64
    ensures { result ≡ length (replies_said said.now) }
{
    match said {
        Said::Reply(_) => 1,
        Said::Nothing | Said::Change(_) => 0,
    }
}

fn served(fronts: Vec<Front>, replies: u64, end: WsEnd) -> WsServed
    ensures fronts { result.fronts.items ≡ fronts.items }
    ensures replies { result.replies ≡ replies }
    ensures end { result.end ≡ end }
{
    WsServed {
        fronts,
        replies,
        end,
    }
}

// Why a socket ends whose link did nothing.
fn end_of_link(error: LinkError) -> WsEnd
    ensures { result ≡ end_of_link error }
{
    match error {
        LinkError::Failed => WsEnd::LinkFault,
        LinkError::NoMemory => WsEnd::NoMemory,
    }
}
