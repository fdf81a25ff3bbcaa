//! A lock round an account that is kept in a file.
ghost use Rattle.std.specs.Prelude.{Some};
ghost use Rattle.cal_model.specs.Answer.{unkept_answer};
ghost use Rattle.cal_model.specs.AnswerPlaces.{unkept_place};

use account_desk::lock::AccountLock;
use account_lock::locked::{CallError, Locked};
use account_lock::pass::Pass;
use kept_account::account::KeptAccount;
use spec_calls::call::{Call, Reply};
use spec_time::moment::Moment;
use sql_keeper::file_keeper::FileKeeper;
use std::alloc::{AllocError, Global};
use std::sync::Wait;

/// An account that is kept in a database in a file.
pub type FileAccount = KeptAccount<FileKeeper>;

/// A lock round such an account.
#[derive(Drop)]
pub struct FileLock {
    locked: Locked<FileAccount>,
}

impl AccountLock for FileLock {
    type Book = FileAccount;

    type Pass = Pass<FileAccount>;

    ghost account = { λ a. (a.0, a.1) };

    ghost lock = { λ l. l.locked };

    ghost state = { λ p. p };

    ghost unkept = { Some unkept_answer };

    ghost unkept_placed = { unkept_place };

    fn open(
        alloc: Global,
        book: FileAccount,
        passes: u32,
    ) -> Result<(FileLock, Vec<Pass<FileAccount>>), AllocError> {
        let (locked, passes) = Locked::open(alloc, book, passes)?;
        Ok((FileLock { locked }, passes))
    }

    fn turns(pass: &Pass<FileAccount>) -> u64 {
        pass.turns()
    }

    fn place_now(&self) -> u64 {
        self.locked.place_now()
    }

    fn call<W: Wait>(
        &self,
        runtime: &W,
        pass: &mut Pass<FileAccount>,
        call: &Call,
        moment: Moment,
    ) -> Result<Reply, CallError> {
        self.locked.call(runtime, pass, call, moment)
    }
}
