//! What the outside gives and takes: its forms in memory, and its adapters.
use io_edge::clock::Clock;
use io_edge::fault::Failed;
use io_edge::memory_clock::{MemClock, StillClock};
use io_edge::memory_opener::{MemOpener, SureOpener};
use io_edge::memory_sink::{MemSink, SureSink};
use io_edge::memory_source::{MemSource, SureSource};
use io_edge::opener::{LoadError, Opener};
use io_edge::room_sink::RoomSink;
use io_edge::sink::{Sink, put_all};
use io_edge::source::{InputError, Source, read_up_to};
use io_edge::streams::{ReaderSource, WriterSink};
use io_edge::system_clock::SystemClock;
use std::alloc::{AllocError, Global};
use std::io::{self, ErrorKind, Read, Write};
use std::process::Abort;
use std::test::Fail;

#[test]
fn a_source_is_read_to_its_end_in_pieces_of_any_size(rt: HostRuntime) -> Result<(), Fail> {
    let alloc = rt.alloc();
    let mut sure = SureSource::new(b"to the end".to_vec(alloc)?);
    assert_eq!(rt;
        read_up_to(alloc, &mut sure, 10)?.as_slice(),
        b"to the end".as_slice()
    );
    for most in [1, 3, 10, 100] {
        let bytes = b"to the end".to_vec(alloc)?;
        let mut source = MemSource::new(bytes, most, Vec::new(alloc));
        let read = read_up_to(alloc, &mut source, 100)?;
        assert_eq!(rt;
            read.as_slice(),
            b"to the end".as_slice(),
            "in pieces of {most}"
        );
    }
    let mut reader = ReaderSource::new(b"to the end".as_slice());
    assert_eq!(rt;
        read_up_to(alloc, &mut reader, 100)?.as_slice(),
        b"to the end".as_slice()
    );
    Ok(())
}

#[test]
fn long_input_is_read_whole(rt: HostRuntime) -> Result<(), Fail> {
    let alloc = rt.alloc();
    for length in [0, 1, 65535, 65536, 65537, 200000] {
        let bytes = vec![in alloc; 7u8; length]?;
        let mut source = SureSource::new(bytes);
        let read = read_up_to(alloc, &mut source, usize::MAX)?;
        assert_eq!(rt; read.len(), length);
        assert!(rt; read.iter().all(|byte| *byte == 7));
    }
    Ok(())
}

#[test]
fn reading_stops_one_byte_past_the_most(rt: HostRuntime) -> Result<(), Fail> {
    let alloc = rt.alloc();
    for piece in [1, 4, 100] {
        let bytes = b"0123456789".to_vec(alloc)?;
        let mut source = MemSource::new(bytes, piece, Vec::new(alloc));
        let first = read_up_to(alloc, &mut source, 4)?;
        assert_eq!(rt;
            first.as_slice(),
            b"01234".as_slice(),
            "in pieces of {piece}"
        );
        let rest = read_up_to(alloc, &mut source, 5)?;
        assert_eq!(rt;
            rest.as_slice(),
            b"56789".as_slice(),
            "in pieces of {piece}"
        );
    }
    Ok(())
}

#[test]
fn the_listed_takes_fail_and_lose_nothing(rt: HostRuntime) -> Result<(), Fail> {
    let alloc = rt.alloc();
    let failing = [1, 3, 3].to_vec(alloc)?;
    let mut source = MemSource::new(b"abcdef".to_vec(alloc)?, 2, failing);
    let wanted = [Ok(2), Err(Failed), Ok(2), Err(Failed), Ok(2), Ok(0)];
    let mut held = Vec::new(alloc);
    for answer in wanted {
        let mut piece = [0; 4];
        let taken = source.take(&mut piece);
        assert_eq!(rt; taken, answer);
        if let Ok(count) = taken {
            held.extend_from_slice(&piece[..count])?;
        }
    }
    assert_eq!(rt; held.as_slice(), b"abcdef".as_slice());
    Ok(())
}

#[test]
fn a_failing_read_is_told(rt: HostRuntime) -> Result<(), Fail> {
    let alloc = rt.alloc();
    let failing = [2].to_vec(alloc)?;
    let mut source = MemSource::new(b"abcdef".to_vec(alloc)?, 2, failing);
    assert_eq!(rt;
        read_up_to(alloc, &mut source, 100).err(),
        Some(InputError::Failed)
    );
    assert_eq!(rt;
        read_up_to(alloc, &mut source, 100)?.as_slice(),
        b"ef".as_slice()
    );
    let mut reader = ReaderSource::new(Broken);
    assert_eq!(rt;
        read_up_to(alloc, &mut reader, 100).err(),
        Some(InputError::Failed)
    );
    Ok(())
}

#[test]
fn a_sink_holds_the_pieces_that_did_not_fail(rt: HostRuntime) -> Result<(), Fail> {
    let alloc = rt.alloc();
    let mut sure = SureSink::new(alloc);
    put_all(&mut sure, b"one ")?;
    put_all(&mut sure, b"")?;
    put_all(&mut sure, b"two")?;
    assert_eq!(rt; sure.bytes(), Some(b"one two".as_slice()));

    let mut sink = MemSink::new(alloc, [1, 3].to_vec(alloc)?);
    let pieces = [b"one ", b"two ", b"six ", b"ten ", b"all "];
    let wanted = [Ok(()), Err(Failed), Ok(()), Err(Failed), Ok(())];
    for (piece, answer) in pieces.iter().zip(wanted) {
        assert_eq!(rt; put_all(&mut sink, piece.as_slice()), answer);
    }
    assert_eq!(rt; sink.bytes(), Some(b"one six all ".as_slice()));
    Ok(())
}

#[test]
fn a_sink_with_room_holds_the_pieces_that_fit(rt: HostRuntime) -> Result<(), Fail> {
    let alloc = rt.alloc();
    let mut sink = RoomSink::new(alloc, 8, [1].to_vec(alloc)?)?;
    for (piece, answer) in [
        (b"one ".as_slice(), Ok(4)),
        (b"two ".as_slice(), Err(Failed)),
        (b"seven".as_slice(), Err(Failed)),
        (b"six ".as_slice(), Ok(4)),
        (b"x".as_slice(), Err(Failed)),
        (b"".as_slice(), Ok(0)),
    ] {
        assert_eq!(rt; sink.give(piece), answer);
    }
    assert_eq!(rt; sink.bytes(), b"one six ".as_slice());
    Ok(())
}

#[test]
fn a_fault_within_a_piece_leaves_a_front(rt: HostRuntime) -> Result<(), Fail> {
    let alloc = rt.alloc();
    for (room, wanted) in [(0, ""), (5, "01234"), (9, "012345678")] {
        let mut held = Vec::new(alloc);
        let mut sink = WriterSink::new(Narrow {
            held: &mut held,
            room,
        });
        assert_eq!(rt;
            put_all(&mut sink, b"0123456789"),
            Err(Failed),
            "with room {room}"
        );
        assert_eq!(rt; held.as_slice(), wanted.as_bytes());
    }
    let mut held = Vec::new(alloc);
    let mut sink = WriterSink::new(Narrow {
        held: &mut held,
        room: 10,
    });
    put_all(&mut sink, b"0123456789")?;
    assert_eq!(rt; held.as_slice(), b"0123456789".as_slice());
    Ok(())
}

#[test]
fn a_file_is_loaded_by_its_name(rt: HostRuntime) -> Result<(), Fail> {
    let alloc = rt.alloc();
    let mut sure = SureOpener::new(alloc, site_files(alloc)?);
    let mut listed = MemOpener::new(alloc, site_files(alloc)?, [4].to_vec(alloc)?);
    for (name, most, wanted) in [
        ("site", 9, Ok("first")),
        ("site", 5, Ok("first")),
        ("site", 2, Ok("fi")),
        ("empty", 1, Ok("")),
    ] {
        loads(&rt, &mut sure, name, most, wanted);
        loads(&rt, &mut listed, name, most, wanted);
    }
    loads(&rt, &mut sure, "other", 9, Err(LoadError::Missing));
    loads(&rt, &mut listed, "site", 9, Err(LoadError::Failed));
    loads(&rt, &mut listed, "other", 9, Err(LoadError::Missing));
    loads(&rt, &mut listed, "site", 9, Ok("first"));
    Ok(())
}

#[test]
fn a_clock_repeats_its_last_moment(rt: HostRuntime) -> Result<(), Fail> {
    let alloc = rt.alloc();
    let mut clock = MemClock::new(vec![in alloc; 1704067200, -5, 7]?);
    ticks(&rt, &mut clock, &[1704067200, -5, 7, 7, 7]);
    let mut still = StillClock { moment: 1704067200 };
    ticks(&rt, &mut still, &[1704067200, 1704067200]);
    Ok(())
}

#[test]
fn the_system_tells_seconds_of_this_century(rt: HostRuntime) {
    let mut clock = SystemClock::new(rt);
    let moment = moment_of(&mut clock);
    // from 2020-01-01T00:00:00Z to 2100-01-01T00:00:00Z
    assert!(rt; moment > 1577836800 && moment < 4102444800);
}

/// Two files of one name, and an empty one.
fn site_files(alloc: Global) -> Result<Vec<(String, Vec<u8>)>, AllocError> {
    let mut files = Vec::new(alloc);
    for (name, bytes) in [("site", "first"), ("empty", ""), ("site", "second")] {
        let bytes = bytes.as_bytes().to_vec(alloc)?;
        files.push((String::from_str(alloc, name)?, bytes))?;
    }
    Ok(files)
}

/// Loads a file, and asserts what comes back.
pub fn loads<O: Opener>(
    rt: &impl Abort,
    opener: &mut O,
    name: &str,
    most: u64,
    wanted: Result<&str, LoadError>,
) {
    match (opener.load(name, most), wanted) {
        (Ok(bytes), Ok(text)) => assert_eq!(rt; bytes.as_slice(), text.as_bytes()),
        (Err(error), Err(other)) => assert_eq!(rt; error, other),
        _ => assert!(rt; false, "at {name}"),
    }
}

fn moment_of<C: Clock>(clock: &mut C) -> i64 {
    clock.now()
}

fn ticks<C: Clock>(rt: &impl Abort, clock: &mut C, wanted: &[i64]) {
    for moment in wanted {
        assert_eq!(rt; clock.now(), *moment);
    }
}

/// A reader that fails at once.
#[derive(Drop)]
struct Broken;

impl Read for Broken {
    fn read(&mut self, _buf: &mut [u8]) -> io::Result<usize> {
        Err(io::Error::from(ErrorKind::Other))
    }
}

/// A writer that takes at most two bytes at once, and none where its room is used up.
#[derive(Drop)]
struct Narrow<'a> {
    held: &'a mut Vec<u8>,
    room: usize,
}

impl Write for Narrow<'_> {
    fn write(&mut self, buf: &[u8]) -> io::Result<usize> {
        let count = buf.len().min(self.room).min(2);
        self.held.extend_from_slice(&buf[..count])?;
        self.room -= count;
        Ok(count)
    }

    fn flush(&mut self) -> io::Result<()> {
        Ok(())
    }
}
