//! What replies have in common.
ghost use Rattle.std.specs.Prelude.{◌≡◌};
ghost use Rattle.account_store.specs.Store.{entries};
ghost use Rattle.cal_model.specs.Answer.{answered, refused};

use account_store::Store;
use spec_calls::call::{MethodError, Reply};
use spec_json::lists::Pairs;
use spec_json::tree::Tree;
use std::alloc::Global;

/// The reply to a call that is answered. Takes no memory.
pub fn reply(store: &Store, arguments: Tree, created: Pairs) -> Reply
    ensures { result ≡ answered (entries store.now) arguments created }
{
    Reply {
        arguments,
        error: None,
        created,
        place: store.len(),
    }
}

/// The reply to a call that is refused. Takes no memory.
pub fn refusal(alloc: Global, store: &Store, error: MethodError) -> Reply
    ensures { result ≡ refused (entries store.now) error }
{
    Reply {
        arguments: Tree::Null,
        error: Some(error),
        created: Pairs::new(Vec::new(alloc)),
        place: store.len(),
    }
}
