//! What keepers give back, and which databases are no journals. The texts are written by hand.

use crate::open::{OpenError, open_keeper};
use crate::owner::claim;
use crate::tables::VERSION;
use journal_keeper::keeper::{JournalError, KeepError, Keeper};
use journal_keeper::kept_text::{KeptText, Mark};
use journal_keeper::memory_keeper::MemKeeper;
use journal_keeper::read::read_entry;
use journal_keeper::write::entry_text;
use spec_json::text::Text;
use sqlite::{Connection, MemStore, params};
use std::alloc::Global;
use std::process::Abort;
use std::test::Fail;

const CALENDAR: &str =
    r#"{"author":0,"id":1,"kind":"calendar","moment":1704067200,"object":{"name":"Work"},"part":0,"turn":1}"#;

const EVENT: &str =
    r#"{"author":7,"id":4294967295,"kind":"event","moment":253370764799,"object":{"a":[{"b":-1}],"c":"\u0001é"},"part":1,"turn":1099511627776}"#;

const REMOVAL: &str =
    r#"{"author":0,"id":1,"kind":"calendar","moment":0,"object":null,"part":0,"turn":2}"#;

fn kept(alloc: Global, account: &str, text: &str) -> Result<KeptText, Fail> {
    let mark = match read_entry(alloc, text.as_bytes()) {
        Ok(entry) => Mark::of(&entry.change),
        Err(error) => return Err(Fail::from(error)),
    };
    let text = text.as_bytes().to_vec(alloc)?;
    Ok(KeptText::new(Text::from_str(alloc, account)?, mark, text))
}

// Keeps three texts of two accounts in two keeps, and loads them.
fn keeps<K: Keeper>(rt: &impl Abort, alloc: Global, keeper: &mut K) -> Result<(), Fail> {
    loads(rt, alloc, keeper, "A1", &[])?;
    let first = vec![in alloc; kept(alloc, "A1", CALENDAR)?, kept(alloc, "B", EVENT)?]?;
    assert_eq!(rt; keeper.keep(first), Ok(()));
    let second = vec![in alloc; kept(alloc, "A1", REMOVAL)?]?;
    assert_eq!(rt; keeper.keep(second), Ok(()));
    loads(rt, alloc, keeper, "A1", &[CALENDAR, REMOVAL])?;
    loads(rt, alloc, keeper, "B", &[EVENT])?;
    loads(rt, alloc, keeper, "C", &[])
}

fn loads<K: Keeper>(
    rt: &impl Abort,
    alloc: Global,
    keeper: &mut K,
    account: &str,
    wanted: &[&str],
) -> Result<(), Fail> {
    let Ok(loaded) = keeper.load(account) else {
        panic!(rt; "no list of {account}");
    };
    let list = &loaded.kept.behind;
    assert_eq!(rt; list.len(), wanted.len());
    for (entry, wanted) in list.iter().zip(wanted) {
        let text = entry_text(alloc, entry)?;
        assert!(rt; text.as_slice() == wanted.as_bytes());
    }
    Ok(())
}

fn is_damaged<K: Keeper>(rt: &impl Abort, keeper: &mut K, at: u64, wanted: &str) {
    match keeper.load("A1") {
        Err(JournalError::Damaged { place, text }) => {
            assert_eq!(rt; place, at);
            assert!(rt; text.as_slice() == wanted.as_bytes());
        }
        _ => panic!(rt; "no damage at {at}"),
    }
}

#[test]
fn a_keeper_in_memory_gives_back_what_it_kept(rt: HostRuntime) -> Result<(), Fail> {
    let alloc = rt.alloc();
    keeps(
        &rt,
        alloc,
        &mut MemKeeper::new(alloc, Vec::new(alloc), Vec::new(alloc), false),
    )
}

#[test]
fn nothing_is_kept_behind_what_is_in_doubt(rt: HostRuntime) -> Result<(), Fail> {
    let alloc = rt.alloc();
    let failing = vec![in alloc; 1u64]?;
    let mut keeper = MemKeeper::new(alloc, Vec::new(alloc), failing, true);
    for wanted in [Ok(()), Err(KeepError::Failed), Err(KeepError::Failed)] {
        let texts = vec![in alloc; kept(alloc, "A1", CALENDAR)?]?;
        assert_eq!(rt; keeper.keep(texts), wanted);
    }
    loads(&rt, alloc, &mut keeper, "A1", &[CALENDAR])
}

#[test]
fn a_journal_gives_back_what_it_kept(rt: HostRuntime) -> Result<(), Fail> {
    let alloc = rt.alloc();
    let Ok(mut keeper) = open_keeper(alloc, Connection::open_in_memory(alloc)?) else {
        panic!(rt; "no journal");
    };
    keeps(&rt, alloc, &mut keeper)
}

fn put(conn: &mut Connection<MemStore>, place: i64, text: &str) -> bool {
    conn.execute(
        "INSERT INTO entry (account, place, text) VALUES ('A1', ?1, ?2)",
        params![place, text.as_bytes()],
    )
    .is_ok()
}

// Puts texts at places of the account, and tells where the first damage is.
fn damage_among(
    rt: &impl Abort,
    alloc: Global,
    texts: &[(i64, &str)],
    at: u64,
    wanted: &str,
) -> Result<(), Fail> {
    let Ok(mut keeper) = open_keeper(alloc, Connection::open_in_memory(alloc)?) else {
        panic!(rt; "no journal");
    };
    for (place, text) in texts {
        assert!(rt; put(&mut keeper.conn, *place, text));
    }
    is_damaged(rt, &mut keeper, at, wanted);
    Ok(())
}

#[test]
fn damage_is_told_with_its_place(rt: HostRuntime) -> Result<(), Fail> {
    let alloc = rt.alloc();
    let cut = "{\"author\":0,";
    damage_among(&rt, alloc, &[(0, CALENDAR), (2, REMOVAL)], 1, "")?;
    damage_among(&rt, alloc, &[(0, CALENDAR), (1, cut), (2, REMOVAL)], 1, cut)?;
    damage_among(&rt, alloc, &[(0, CALENDAR), (0, CALENDAR)], 1, "")?;
    damage_among(&rt, alloc, &[(1, CALENDAR), (0, REMOVAL)], 0, "")
}

fn refuses(rt: &impl Abort, alloc: Global, script: &str, wanted: OpenError) -> Result<(), Fail> {
    let mut conn = Connection::open_in_memory(alloc)?;
    assert!(rt; conn.execute_batch(script).is_ok());
    match open_keeper(alloc, conn) {
        Err(error) => assert_eq!(rt; error, wanted),
        Ok(_) => panic!(rt; "opened"),
    }
    Ok(())
}

#[test]
fn what_is_no_journal_is_refused(rt: HostRuntime) -> Result<(), Fail> {
    let alloc = rt.alloc();
    let other = "CREATE TABLE note (title TEXT NOT NULL) STRICT";
    let about = "CREATE TABLE about (program TEXT NOT NULL, version INTEGER NOT NULL) STRICT;";
    refuses(&rt, alloc, other, OpenError::OtherProgram)?;
    refuses(&rt, alloc, about, OpenError::OtherProgram)?;
    refuses(
        &rt,
        alloc,
        "CREATE TABLE about (program TEXT NOT NULL, version INTEGER NOT NULL) STRICT; INSERT INTO about VALUES ('jmapd', 3)",
        OpenError::OtherVersion(3),
    )?;
    refuses(
        &rt,
        alloc,
        "CREATE TABLE about (program TEXT NOT NULL, version INTEGER NOT NULL) STRICT; INSERT INTO about VALUES ('notes', 1)",
        OpenError::OtherProgram,
    )
}

// Asks for a database as one account and another, with a text of the account A1 in it or without.
fn claims(
    rt: &impl Abort,
    alloc: Global,
    is_empty: bool,
    wanted: &[(&str, bool)],
) -> Result<(), Fail> {
    let Ok(mut keeper) = open_keeper(alloc, Connection::open_in_memory(alloc)?) else {
        panic!(rt; "no journal");
    };
    if !is_empty {
        assert!(rt; put(&mut keeper.conn, 0, CALENDAR));
    }
    for (account, is_own) in wanted {
        assert_eq!(rt; claim(&mut keeper.conn, account), Ok(*is_own));
    }
    Ok(())
}

#[test]
fn a_journal_is_one_accounts(rt: HostRuntime) -> Result<(), Fail> {
    let alloc = rt.alloc();
    claims(&rt, alloc, true, &[("B", true), ("A1", false), ("B", true)])?;
    claims(
        &rt,
        alloc,
        false,
        &[("B", false), ("A1", true), ("B", false), ("A1", true)],
    )
}

// The texts of so many puts of one event, from a turn on.
fn puts(alloc: Global, first: u64, count: u64) -> Result<Vec<KeptText>, Fail> {
    let mut texts = Vec::new(alloc);
    for turn in first..first.saturating_add(count) {
        let text = format!(in alloc;
            "{{\"author\":0,\"id\":1,\"kind\":\"event\",\"moment\":0,\"object\":{{\"n\":{turn}}},\"part\":0,\"turn\":{turn}}}"
        )?;
        texts.push(kept(alloc, "A1", text.as_str())?)?;
    }
    Ok(texts)
}

fn rows_in(conn: &mut Connection<MemStore>) -> Option<i64> {
    let row = conn.query_row("SELECT COUNT(*) FROM entry", &[]).ok()?;
    row.get(0).ok()
}

// What is loaded of the account A1: how many changes of events are behind their floor, and the state of that.
fn loaded_events<K: Keeper>(keeper: &mut K) -> Option<(u64, usize, usize)> {
    let loaded = keeper.load("A1").ok()?;
    let events = &loaded.kept.events;
    Some((events.state, events.live.len(), loaded.kept.behind.len()))
}

#[test]
fn a_journal_lets_go_of_what_is_not_answered_from(rt: HostRuntime) -> Result<(), Fail> {
    let alloc = rt.alloc();
    let Ok(mut keeper) = open_keeper(alloc, Connection::open_in_memory(alloc)?) else {
        panic!(rt; "no journal");
    };
    for first in [0u64, 500, 1000, 1500, 2000, 2500, 3000, 3500, 4000, 4500] {
        assert_eq!(rt; keeper.keep(puts(alloc, first, 500)?), Ok(()));
    }
    assert_eq!(rt; rows_in(&mut keeper.conn), Some(4098));
    assert_eq!(rt; loaded_events(&mut keeper), Some((903, 1, 4097)));
    assert_eq!(rt; keeper.keep(puts(alloc, 5000, 1)?), Ok(()));
    assert_eq!(rt; rows_in(&mut keeper.conn), Some(4098));
    assert_eq!(rt; loaded_events(&mut keeper), Some((904, 1, 4097)));
    Ok(())
}

const WITHOUT_FLOORS: &str =
    "CREATE TABLE about (program TEXT NOT NULL, version INTEGER NOT NULL) STRICT; CREATE TABLE entry (account TEXT NOT NULL, place INTEGER NOT NULL, text BLOB NOT NULL) STRICT; INSERT INTO about VALUES ('jmapd', 1)";

#[test]
fn a_journal_without_floors_is_brought_up_to_date(rt: HostRuntime) -> Result<(), Fail> {
    let alloc = rt.alloc();
    let mut conn = Connection::open_in_memory(alloc)?;
    assert!(rt; conn.execute_batch(WITHOUT_FLOORS).is_ok());
    assert!(rt; put(&mut conn, 0, CALENDAR) && put(&mut conn, 1, REMOVAL));
    let Ok(mut keeper) = open_keeper(alloc, conn) else {
        panic!(rt; "no journal");
    };
    loads(&rt, alloc, &mut keeper, "A1", &[CALENDAR, REMOVAL])?;
    let version: i64 = keeper
        .conn
        .query_row("SELECT version FROM about", &[])?
        .get(0)?;
    assert_eq!(rt; version, VERSION);
    Ok(())
}

#[test]
fn a_floor_that_nothing_leaves_is_damage(rt: HostRuntime) -> Result<(), Fail> {
    let alloc = rt.alloc();
    let Ok(mut keeper) = open_keeper(alloc, Connection::open_in_memory(alloc)?) else {
        panic!(rt; "no journal");
    };
    assert!(rt;
        keeper
            .conn
            .execute("INSERT INTO floor VALUES ('A1', 'calendar', 7, 3, 9)", &[])
            .is_ok()
    );
    assert!(rt; put(&mut keeper.conn, 4, CALENDAR) && put(&mut keeper.conn, 9, REMOVAL));
    is_damaged(&rt, &mut keeper, 10, "");
    Ok(())
}
