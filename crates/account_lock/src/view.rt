//! What a pass knows, as its seat in the lock's table carries it.
use std::marker::Model;

/// What a pass knows. It takes no bytes: contracts alone see it.
#[derive(Drop)]
pub struct View {}

impl Model for View {
    ghost use Rattle.std.specs.Prelude.{[]};
    ghost use Rattle.std.specs.Coded.{codes};
    ghost use Rattle.spec_json.specs.DataCode.{data_code};
    ghost use Rattle.account_lock.specs.Lock.{PassView};
    ghost use Rattle.spec_history.specs.Base.{no_base};
    ghost use Rattle.account_lock.specs.LockSteps.{new_pass};

    ghost Value = { PassView };

    ghost coded = { Prim.hlevel (codes, data_code) };

    ghost view = { λ _. new_pass 0 [] no_base };
}
