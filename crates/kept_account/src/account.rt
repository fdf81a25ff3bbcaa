//! An account whose entries are kept before it has them.
ghost use Rattle.std.specs.Arc.{arc_value};
ghost use Rattle.std.specs.Prelude.{◌≡◌, IfErr, IfOk, None, OnOk, OnErr, Some};
ghost use Rattle.account_opening.specs.Opening.{IsRefusal};
ghost use Rattle.cal_model.specs.Answer.{added, answer, unkept_answer};
ghost use Rattle.cal_model.specs.GoesOn.{GoesOn};
ghost use Rattle.journal_keeper.specs.Journals.{Lists};
ghost use Rattle.kept_account.specs.HasKept.{HasKept, LeavesSound};
ghost use Rattle.spec_history.specs.History.{changes_of};
ghost use Rattle.spec_snapshots.specs.Kept.{IsKeptFrom};

use crate::account_texts::AccountTexts;
use account_core::account::Account;
use account_opening::OpeningError;
use journal_keeper::keeper::Keeper;
use journal_keeper::loaded::Loaded;
use spec_books::book::Book;
use spec_calls::call::{Call, Reply};
use spec_history::stamp::Stamp;
use spec_json::text::Text;
use spec_time::moment::Moment;
use std::alloc::{AllocError, Global};
use std::marker::Model;
use std::sync::Arc;
use zone_table::Zones;

/// An account with the keeper of its entries. Contracts see its base, its entries, and what the keeper shows.
///
/// Its type keeps that the keeper's list of the account is the account's entries.
#[derive(Drop)]
pub struct KeptAccount<K: Keeper> {
    account: Account,
    texts: AccountTexts<K>,
}

impl<K: Keeper> Model for KeptAccount<K> {
    ghost use Rattle.std.specs.Prelude.{◌≡◌, List};
    ghost use Rattle.std.specs.Coded.{codes};
    ghost use Rattle.journal_keeper.specs.Journals.{KeeperShown};
    ghost use Rattle.kept_account.specs.HasKept.{HasKept};
    ghost use Rattle.spec_history.specs.Base.{Base};
    ghost use Rattle.spec_history.specs.declared.entry.Entry.{Entry};
    ghost use Rattle.spec_json.specs.DataCode.{data_code};

    ghost Value = { Base × List Entry × KeeperShown };

    ghost coded = { Prim.hlevel (codes, data_code) };

    ghost view = { λ a. (a.account.0, a.account.1, K.shown a.texts.keeper) };

    ghost invariant = { λ a. (a.texts.id ≡ a.account.0.account_id) × HasKept (K.shown a.texts.keeper).told a.account.0 a.account.1 };
}

impl<K: Keeper> KeptAccount<K> {
    /// An account of this id, with these zones, in this generation of the data, that goes on from what its keeper has of it, which nothing is in doubt of.
    ///
    /// `BadObject` tells an object for which no account goes on from that. Takes memory for what an account keeps of its entries.
    pub fn open_at(
        alloc: Global,
        id: Text,
        zones: Arc<Zones>,
        generation: u64,
        loaded: Loaded,
        keeper: K,
    ) -> Result<KeptAccount<K>, OpeningError>
        requires kept { HasKept (K.shown keeper).told (record { account_id = id; zones = arc_value zones; generation = generation }) loaded.told.items }
        requires loaded { IsKeptFrom loaded.told.items loaded.kept }
        ensures opened { IfOk result (λ a. a ≡ (record { account_id = id; zones = arc_value zones; generation = generation }, loaded.told.items, K.shown keeper)) }
        ensures goes_on { OnOk result (GoesOn (arc_value zones) (changes_of loaded.told.items)) }
        ensures refused { IfErr result (IsRefusal (arc_value zones) (changes_of loaded.told.items)) }
    {
        let texts = AccountTexts {
            alloc,
            id: id.copy()?,
            keeper,
        };
        let account = Account::open_at(alloc, id, zones, generation, loaded)?;
        Ok(KeptAccount { account, texts })
    }

    /// The keeper's list of the account is the account's entries, and whatever a stop leaves, an account opens again at it. It is so of each account, whatever
    /// calls it answered, and this call does nothing.
    pub fn has_kept_entries(&self)
        ensures kept { HasKept self.now.2.told self.now.0 self.now.1 }
        ensures lists { Lists self.now.2.told self.now.0.account_id self.now.1 }
        ensures leaves { LeavesSound self.now.2.told self.now.0 self.now.1 }
    {
        self.account.goes_on();
    }
}

impl<K: Keeper + Send> Book for KeptAccount<K> {
    ghost use Rattle.cal_model.specs.AddedEntries.{added_signed};

    type Call = Call;

    type Reply = Reply;

    ghost base = { λ a. a.0 };

    ghost entries = { λ a. a.1 };

    ghost answer = { answer };

    ghost added = { added };

    ghost unkept = { Some unkept_answer };

    fn act(
        &mut self,
        author: u32,
        turn: u64,
        call: &Call,
        moment: Moment,
    ) -> Result<Reply, AllocError> {
        let stamp = Stamp {
            author,
            turn,
            moment,
        };
        self.account.act_kept(&mut self.texts, &stamp, call)
    }

    fn count(&self) -> u64 {
        self.account.count()
    }

    ghost signed = { added_signed };
}
