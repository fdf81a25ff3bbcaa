//! What passes of one lock see of each other's calls, from one thread and from four.
ghost use Rattle.std.specs.Prelude.{◌≡◌, ℕ, Some, slice_get};
ghost use Rattle.account_lock.specs.Passes.{PassState};

use crate::reporting_book::{Answer, Question, Report, ReportingBook, Signature};
use account_lock::counter::{Add, CounterBook};
use account_lock::locked::Locked;
use account_lock::pass::Pass;
use spec_books::book::Book;
use spec_time::moment::Moment;
use std::alloc::Global;
use std::process::Abort;
use std::sync::Wait;
use std::thread::{Threads, join};

/// The calls of each of four threads.
const TIMES: u64 = 25_000;

// Takes the last of some passes of the lock.
fn pop_pass<B: Book>(rt: &impl Abort, lock: &Locked<B>, passes: &mut Vec<Pass<B>>) -> Pass<B>
    requires { (k : ℕ) (p : PassState) → slice_get passes.old.items k ≡ Some p → p.lock ≡ lock.now }
    ensures of_lock { result.lock ≡ lock.now }
    ensures others { (k : ℕ) (p : PassState) → slice_get passes.new.items k ≡ Some p → p.lock ≡ lock.now }
{
    passes.pop().expect(rt, "there is a pass")
}

// A lock round the book, with pass 0 and pass 1.
fn open_two<B: Book>(rt: &impl Abort, alloc: Global, book: B) -> (Locked<B>, Pass<B>, Pass<B>)
    ensures { (result.1.lock ≡ result.0) × (result.2.lock ≡ result.0) }
{
    let Ok((lock, mut passes)) = Locked::open(alloc, book, 2) else {
        panic!(rt; "there is no memory")
    };
    let second = pop_pass(rt, &lock, &mut passes);
    let first = pop_pass(rt, &lock, &mut passes);
    (lock, first, second)
}

#[test]
fn a_sum_counts_the_calls_of_both_passes(rt: HostRuntime) {
    let alloc = rt.alloc();
    let (lock, mut first, mut second) = open_two(&rt, alloc, CounterBook::new(alloc));
    let moment = Moment::new(0);
    assert_eq!(rt; lock.call(&rt, &mut first, &Add(5), moment), Ok(5));
    assert_eq!(rt; lock.call(&rt, &mut second, &Add(2), moment), Ok(7));
    assert_eq!(rt; lock.call(&rt, &mut first, &Add(0), moment), Ok(7));
    assert_eq!(rt; lock.call(&rt, &mut first, &Add(1001), moment), Ok(1007));
}

#[test]
fn a_pass_sees_the_calls_before_its_own(rt: HostRuntime) {
    let alloc = rt.alloc();
    let (lock, mut first, mut second) = open_two(&rt, alloc, ReportingBook::new(alloc));
    let moment = Moment::new(0);
    let two = Report {
        entries: 2,
        of_author: 1,
        first: Some(Signature { author: 0, turn: 1 }),
        last: Some(Signature { author: 1, turn: 1 }),
    };
    let three = Report {
        entries: 3,
        of_author: 2,
        last: Some(Signature { author: 0, turn: 4 }),
        ..two
    };
    assert_eq!(rt;
        lock.call(&rt, &mut first, &Question::Add(5), moment),
        Ok(Answer::Sum(5))
    );
    assert_eq!(rt;
        lock.call(&rt, &mut second, &Question::Add(2), moment),
        Ok(Answer::Sum(7))
    );
    assert_eq!(rt;
        lock.call(&rt, &mut second, &Question::Tell(1), moment),
        Ok(Answer::Told(two))
    );
    assert_eq!(rt;
        lock.call(&rt, &mut first, &Question::Add(0), moment),
        Ok(Answer::Sum(7))
    );
    assert_eq!(rt;
        lock.call(&rt, &mut first, &Question::Tell(0), moment),
        Ok(Answer::Told(two))
    );
    assert_eq!(rt;
        lock.call(&rt, &mut first, &Question::Add(1), moment),
        Ok(Answer::Sum(8))
    );
    assert_eq!(rt;
        lock.call(&rt, &mut second, &Question::Tell(0), moment),
        Ok(Answer::Told(three))
    );
}

// Adds ones with all calls of a thread, and gives the last sum.
fn add_ones<R: Wait>(
    rt: &R,
    lock: &Locked<ReportingBook>,
    mut pass: Pass<ReportingBook>,
) -> Option<u64>
    requires { pass.lock ≡ lock.now }
{
    let mut last = 0;
    for _ in 0..TIMES {
        let answer = lock.call(rt, &mut pass, &Question::Add(1), Moment::new(0));
        let Ok(Answer::Sum(sum)) = answer else {
            return None;
        };
        last = sum;
    }
    Some(last)
}

fn add_in_two_threads<R: Threads + Wait + Sync>(
    rt: &R,
    lock: &Locked<ReportingBook>,
    one: Pass<ReportingBook>,
    other: Pass<ReportingBook>,
) -> [Option<u64>; 2]
    requires { (one.lock ≡ lock.now) × (other.lock ≡ lock.now) }
{
    let (one, other) = join(
        rt,
        move ||
            requires { one.lock ≡ lock.now }
        { add_ones(rt, lock, one) },
        move ||
            requires { other.lock ≡ lock.now }
        { add_ones(rt, lock, other) },
    );
    [one, other]
}

fn add_in_four_threads<R: Threads + Wait + Sync>(
    rt: &R,
    lock: &Locked<ReportingBook>,
    passes: (
        Pass<ReportingBook>,
        Pass<ReportingBook>,
        Pass<ReportingBook>,
        Pass<ReportingBook>,
    ),
) -> [Option<u64>; 4]
    requires { (passes.0.lock ≡ lock.now) × (passes.1.lock ≡ lock.now) × (passes.2.lock ≡ lock.now) × (passes.3.lock ≡ lock.now) }
{
    let (a, b, c, d) = passes;
    let ([a, b], [c, d]) = join(
        rt,
        move ||
            requires { (a.lock ≡ lock.now) × (b.lock ≡ lock.now) }
        { add_in_two_threads(rt, lock, a, b) },
        move ||
            requires { (c.lock ≡ lock.now) × (d.lock ≡ lock.now) }
        { add_in_two_threads(rt, lock, c, d) },
    );
    [a, b, c, d]
}

// Whether all calls of four threads are seen, and the author's among them.
fn sees_all<R: Wait>(
    rt: &R,
    lock: &Locked<ReportingBook>,
    pass: &mut Pass<ReportingBook>,
    author: u32,
) -> bool
    requires { pass.old.lock ≡ lock.now }
    ensures { pass.new.lock ≡ lock.now }
{
    match lock.call(rt, pass, &Question::Tell(author), Moment::new(0)) {
        Ok(Answer::Told(report)) => {
            report.entries == 4 * TIMES
                && report.of_author == TIMES
                && report.last.map(|signature| signature.turn) == Some(TIMES)
        }
        _ => false,
    }
}

#[test]
fn four_threads_write_one_history(rt: HostRuntime) {
    let alloc = rt.alloc();
    let Ok((lock, mut passes)) = Locked::open(alloc, ReportingBook::new(alloc), 5) else {
        panic!(rt; "there is no memory")
    };
    let mut last = pop_pass(&rt, &lock, &mut passes);
    let d = pop_pass(&rt, &lock, &mut passes);
    let c = pop_pass(&rt, &lock, &mut passes);
    let b = pop_pass(&rt, &lock, &mut passes);
    let a = pop_pass(&rt, &lock, &mut passes);
    let sums = add_in_four_threads(&rt, &lock, (a, b, c, d));
    assert!(rt; sees_all(&rt, &lock, &mut last, 0));
    assert!(rt; sees_all(&rt, &lock, &mut last, 1));
    assert!(rt; sees_all(&rt, &lock, &mut last, 2));
    assert!(rt; sees_all(&rt, &lock, &mut last, 3));
    let mut greatest = 0;
    for sum in sums {
        greatest = sum.expect(&rt, "each call is answered").max(greatest);
    }
    assert_eq!(rt; greatest, 4 * TIMES);
}
