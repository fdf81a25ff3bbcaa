//! What is told of a slot.
ghost use Rattle.std.specs.Prelude.{◌≡◌, All, IfOk, IfSome, length, pos, take, true};
ghost use Rattle.slot_request.specs.Told.{AreTold};
ghost use Rattle.spec_json.specs.Data.{whole};
ghost use Rattle.spec_json.specs.TreeData.{data_of};
ghost use Rattle.spec_slots.specs.Texts.{slot_object, start_data, tried_data, tried_list, with_data};
ghost use Rattle.spec_time.specs.Walls.{is_in_years};

use spec_history::entry::Kind;
use spec_json::num::Num;
use spec_json::text::Text;
use spec_json::tree::{Tree, TreeList};
use spec_slots::limits::MAX_TRIED;
use spec_slots::slot::{FoundSlot, Tried};
use spec_time::wall::Wall;
use std::alloc::{AllocError, Global};
use time_text::{local_text, object_id_text};

/// The arguments of the response of an account: the slot, the first starts that were tried, and how many were. Takes memory for them.
pub fn slot_tree(alloc: Global, account: &Text, found: &FoundSlot) -> Result<Tree, AllocError>
    requires { AreTold found.now }
    ensures { IfOk result (λ t. t ≡ slot_object account.now found.now) }
{
    let tried = found.tried.items();
    let members = vec![in alloc;
        ("accountId", Tree::Text(account.copy()?)),
        ("slot", start_tree(alloc, found.start)?),
        ("tried", tried_list(alloc, first_of(tried))?),
        ("triedTotal", count_of(tried)),
    ]?;
    Tree::object(alloc, members)
}

// The first starts, as many as are told.
#[tactic(auto, using(std::proofs::lemmas::List::take_min))]
fn first_of(tried: &[Tried]) -> &[Tried]
    ensures { result.now ≡ take MAX_TRIED tried.now }
{
    &tried[..MAX_TRIED.min(tried.len())]
}

fn count_of(tried: &[Tried]) -> Tree
    ensures { data_of result ≡ whole (pos (length tried.now)) }
{
    Tree::Whole(Num::new(tried.len() as i128))
}

/// The LocalDateTime of a start, null where there is none. Takes memory for it.
pub fn start_tree(alloc: Global, start: Option<Wall>) -> Result<Tree, AllocError>
    requires { IfSome start (λ x. is_in_years x ≡ true) }
    ensures { IfOk result (λ t. data_of t ≡ start_data start) }
{
    match start {
        Some(start) => Ok(Tree::Text(local_text(alloc, start)?)),
        None => Ok(Tree::Null),
    }
}

/// A list of starts that were tried, each with what stands against it. Takes memory for it.
pub fn tried_list(alloc: Global, tried: &[Tried]) -> Result<Tree, AllocError>
    requires { All (λ t. is_in_years t.start ≡ true) tried.now }
    ensures { IfOk result (λ t. data_of t ≡ tried_list tried.now) }
{
    let mut items = Vec::with_capacity(alloc, tried.len())?;
    for one in tried {
        items.push(tried_tree(alloc, *one)?)?;
    }
    Ok(Tree::List(TreeList::new(items)))
}

fn tried_tree(alloc: Global, tried: Tried) -> Result<Tree, AllocError>
    requires { is_in_years tried.start ≡ true }
    ensures { IfOk result (λ t. data_of t ≡ tried_data tried) }
{
    let members = vec![in alloc;
        ("day", Tree::Whole(Num::new(i128::from(tried.clash.day)))),
        (
            "second",
            Tree::Whole(Num::new(i128::from(tried.clash.second)))
        ),
        ("start", Tree::Text(local_text(alloc, tried.start)?)),
        ("with", with_tree(alloc, tried.clash.with)?),
    ]?;
    Tree::object(alloc, members)
}

fn with_tree(alloc: Global, event: Option<u64>) -> Result<Tree, AllocError>
    ensures { IfOk result (λ t. data_of t ≡ with_data event) }
{
    match event {
        Some(number) => Ok(Tree::Text(object_id_text(alloc, Kind::Event, number)?)),
        None => Ok(Tree::Null),
    }
}
