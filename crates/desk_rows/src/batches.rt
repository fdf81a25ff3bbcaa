//! What a batch asks of a desk over two accounts, of which the user may only read one.
ghost use Rattle.std.specs.Prelude.{◌<◌, All, IfOk};

use crate::pair_desk::PairDesk;
use batch_exec::run::run_batch;
use json_edge::write::tree_text;
use spec_batch::desk::Front;
use spec_core::user::{Grant, Grants, User};
use spec_json::text::Text;
use spec_json::tree::Tree;
use spec_time::moment::Moment;
use std::alloc::{AllocError, Global};
use std::fmt::Write;

/// 2024-01-01T00:00:00Z.
const MOMENT: i64 = 1_704_067_200;

/// A user who may only read `A2`, and may write `A1`.
fn reader_of_one(alloc: Global) -> Result<User, AllocError>
    ensures { IfOk result (λ u. All (λ g. g.account < 2) u.grants) }
{
    let read = Grant {
        account: 0,
        id: Text::from_str(alloc, "A2")?,
        read_only: true,
    };
    let write = Grant {
        account: 1,
        id: Text::from_str(alloc, "A1")?,
        read_only: false,
    };
    Ok(User {
        name: Text::from_str(alloc, "ann")?,
        grants: Grants::new(vec![in alloc; read, write]?),
    })
}

/// The text of the response to a request, or why there is none, and the account and the place of each call that the desk answered for it; some requests
/// go before it, each so many times. The desk is over `A2` and `A1`.
pub fn told(
    alloc: Global,
    before: &[Tree],
    request: &Tree,
    most: u32,
) -> Result<Option<String>, AllocError> {
    let user = reader_of_one(alloc)?;
    let mut desk = PairDesk::open(
        alloc,
        Text::from_str(alloc, "A2")?,
        Text::from_str(alloc, "A1")?,
        most,
    )?;
    for earlier in before {
        if !has_sent(alloc, &user, &mut desk, earlier)? {
            return Ok(None);
        }
    }
    Ok(Some(answered(alloc, &user, &mut desk, request)?))
}

/// Sends a `request` so many `times`, if that is what an object says.
fn has_sent(
    alloc: Global,
    user: &User,
    desk: &mut PairDesk,
    earlier: &Tree,
) -> Result<bool, AllocError>
    requires { All (λ g. g.account < 2) user.now.grants }
{
    let (Some(times), Some(request)) = (earlier.number_at("times"), earlier.get("request")) else {
        return Ok(false);
    };
    for _ in 0..times.get().unsigned_abs() {
        answered(alloc, user, desk, request)?;
    }
    Ok(true)
}

/// What comes of a request.
fn answered(
    alloc: Global,
    user: &User,
    desk: &mut PairDesk,
    request: &Tree,
) -> Result<String, AllocError>
    requires { All (λ g. g.account < 2) user.now.grants }
{
    let mut fronts = Vec::new(alloc);
    let response = run_batch(
        alloc,
        request.copy()?,
        user,
        desk,
        Moment::clamped(MOMENT),
        &mut fronts,
    );
    let mut text = match response {
        Ok(response) => String::from_utf8_lossy(alloc, &tree_text(alloc, &response)?)?,
        Err(error) => format!(in alloc; "{error:?}")?,
    };
    push_fronts(&mut text, &fronts)?;
    Ok(text)
}

fn push_fronts(text: &mut String, fronts: &[Front]) -> Result<(), AllocError> {
    text.push_str(", fronts")?;
    for front in fronts {
        write!(text, " {}:{}", front.account, front.place)?;
    }
    Ok(())
}
