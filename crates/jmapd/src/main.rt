//! The program `jmapd`: runs the command that its words name over the system's files, streams, sockets, threads and clock.
#![tactic(auto)]

mod ending;
mod folder;
mod journal;
mod lock;
mod sockets;
mod unclaimed;
mod unopened;
mod words;

use crate::ending::{finish, finish_kept};
use crate::folder::JournalFolder;
use crate::journal::{look_in_journal, run_journal};
use crate::sockets::run_sockets;
use crate::words::{listen_without_journals, program_words};
use command_line::kept::KeptCommand;
use command_line::listen_kept::ListenKept;
use command_line::slot::read_slot;
use command_line::websocket::Websocket;
use io_edge::streams::{ReaderSource, WriterSink};
use io_edge::system_clock::SystemClock;
use io_edge::system_files::SystemFiles;
use jmapd_listen::listen_kept::listen_kept;
use jmapd_listen::program::run_program;
use jmapd_run::status::Status;
use listen_edge::real_threads::RealThreads;
use listen_edge::tcp_host::TcpHost;
use request_log::operator::Operator;
use std::io;
use std::process::ExitCode;
use ws_edge::tcp_socket_host::TcpSocketHost;

fn main(rt: HostRuntime) -> ExitCode {
    let words = match program_words(&rt) {
        Ok(words) => words,
        Err(status) => return finish(&rt, status),
    };
    match KeptCommand::read(rt.alloc(), &words) {
        Ok(Some(asked)) => return finish_kept(&rt, run_journal(rt, asked)),
        Ok(None) => {}
        Err(_) => return finish(&rt, Status::NoMemory),
    }
    match Websocket::read(rt.alloc(), &words) {
        Ok(Some(asked)) => return finish(&rt, run_sockets(rt, asked)),
        Ok(None) => {}
        Err(_) => return finish(&rt, Status::NoMemory),
    }
    match read_slot(rt.alloc(), &words) {
        Ok(Some(asked)) => return finish_kept(&rt, look_in_journal(rt, asked)),
        Ok(None) => {}
        Err(_) => return finish(&rt, Status::NoMemory),
    }
    match ListenKept::read(rt.alloc(), &words) {
        Ok(Some(asked)) => {
            let operator = Operator::reading(rt.alloc(), rt, rt.stderr());
            let lines = operator.lines(asked.listen.log);
            let status = listen_kept(
                rt.alloc(),
                &asked.listen,
                &mut SystemFiles::new(rt.alloc(), rt),
                &mut JournalFolder::new(rt, rt, asked.journals),
                &mut TcpHost::new(rt.alloc(), rt, lines),
                &mut TcpSocketHost::new(rt.alloc(), rt, operator.lines(false)),
                &mut RealThreads::new(rt),
                SystemClock::new(rt),
            );
            operator.close();
            return finish_kept(&rt, status);
        }
        Ok(None) => {}
        Err(_) => return finish(&rt, Status::NoMemory),
    }
    let (operator, log) = match listen_without_journals(rt.alloc(), &words) {
        Some(asked) => (Operator::reading(rt.alloc(), rt, rt.stderr()), asked.log),
        None => (Operator::nobody(rt.alloc(), rt), false),
    };
    let lines = operator.lines(log);
    lines.say("jmapd: nothing is kept: no --journals");
    let status = run_program(
        rt.alloc(),
        rt,
        &words,
        &mut SystemFiles::new(rt.alloc(), rt),
        &mut ReaderSource::new(rt.reader()),
        &mut WriterSink::new(io::writer(&rt)),
        &mut SystemClock::new(rt),
        &mut TcpHost::new(rt.alloc(), rt, lines),
        &mut TcpSocketHost::new(rt.alloc(), rt, operator.lines(false)),
        &mut RealThreads::new(rt),
    );
    operator.close();
    finish(&rt, status)
}
