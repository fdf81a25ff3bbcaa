//! Connections over sockets of the system.
use io_edge::sink::put_all;
use io_edge::source::Source;
use listen_edge::host::{Host, HostError};
use listen_edge::listener::Listener;
use listen_edge::tcp_host::TcpHost;
use request_log::lines::Lines;
use spec_connection::served::{ConnEnd, Served};
use std::alloc::Global;
use std::io::{self, Read, Write};
use std::net::{Ipv4Addr, Net, OpenListener, OpenStream, Shutdown, SocketAddr};
use std::process::Abort;
use std::test::Fail;
use std::thread;

// A port of localhost on which nothing listened just now.
fn free_port(net: &impl Net) -> io::Result<u16> {
    let listener = net.bind(SocketAddr::from((Ipv4Addr::LOCALHOST, 0)))?;
    Ok(listener.local_addr()?.port())
}

#[test]
fn listeners_of_a_host_share_its_port(rt: HostRuntime) -> Result<(), Fail> {
    let port = free_port(&rt)?;
    let mut host = TcpHost::new(rt.alloc(), rt, Lines::silent(rt.alloc(), rt));
    let (Ok(mut first), Ok(mut second)) = (host.listener(port, 0), host.listener(port, 1)) else {
        panic!(rt; "no listener");
    };
    for _ in 0..2 {
        serve_one(&rt, rt.alloc(), port, &mut first)?;
        serve_one(&rt, rt.alloc(), port, &mut second)?;
    }
    Ok(())
}

#[test]
fn a_host_listens_on_localhost_alone(rt: HostRuntime) -> Result<(), Fail> {
    let port = free_port(&rt)?;
    let mut host = TcpHost::new(rt.alloc(), rt, Lines::silent(rt.alloc(), rt));
    assert!(rt; host.listener(port, 0).is_ok());
    let other = SocketAddr::from((Ipv4Addr::new(127, 0, 0, 2), port));
    assert!(rt; rt.connect(other).is_err());
    Ok(())
}

#[test]
fn a_port_that_is_taken_has_no_listener(rt: HostRuntime) -> Result<(), Fail> {
    let taken = rt.bind(SocketAddr::from((Ipv4Addr::LOCALHOST, 0)))?;
    let mut host = TcpHost::new(rt.alloc(), rt, Lines::silent(rt.alloc(), rt));
    match host.listener(taken.local_addr()?.port(), 0) {
        Ok(_) => panic!(rt; "two listeners"),
        Err(error) => assert_eq!(rt; error, HostError::Failed),
    }
    Ok(())
}

#[test]
fn peers_that_send_no_whole_head_hold_nobody_up(rt: HostRuntime) -> Result<(), Fail> {
    let port = free_port(&rt)?;
    let mut host = TcpHost::new(rt.alloc(), rt, Lines::silent(rt.alloc(), rt));
    let Ok(mut listener) = host.listener(port, 0) else {
        panic!(rt; "no listener");
    };
    let silent = joined(&rt, port)?;
    let mut half = joined(&rt, port)?;
    half.write_all(b"GET / HTTP/1.1\r\nHost: a\r\n")?;
    serve_one(&rt, rt.alloc(), port, &mut listener)?;
    half.write_all(b"\r\n")?;
    let Ok((mut input, output)) = listener.accept() else {
        panic!(rt; "no connection");
    };
    let mut bytes = [0; 64];
    assert_eq!(rt; input.take(&mut bytes), Ok(27));
    listener.ended(
        input,
        output,
        nothing_served(rt.alloc(), ConnEnd::CloseAsked),
    );
    drop(silent);
    Ok(())
}

#[test]
fn a_quiet_connection_makes_way_and_comes_again(rt: HostRuntime) -> Result<(), Fail> {
    let port = free_port(&rt)?;
    let mut host = TcpHost::new(rt.alloc(), rt, Lines::silent(rt.alloc(), rt));
    let Ok(mut listener) = host.listener(port, 0) else {
        panic!(rt; "no listener");
    };
    let mut peer = joined(&rt, port)?;
    peer.write_all(b"a\n\n")?;
    let Ok((mut input, mut output)) = listener.accept() else {
        panic!(rt; "no connection");
    };
    let mut bytes = [0; 8];
    assert_eq!(rt; input.take(&mut bytes), Ok(3));
    assert_eq!(rt; put_all(&mut output, b"b"), Ok(()));
    let mut other = joined(&rt, port)?;
    other.write_all(b"cd\n\n")?;
    assert_eq!(rt; input.take(&mut bytes), Ok(0));
    listener.ended(input, output, nothing_served(rt.alloc(), ConnEnd::Closed));
    peer.write_all(b"efg\n\n")?;
    for count in [4, 5] {
        let Ok((mut input, output)) = listener.accept() else {
            panic!(rt; "no connection");
        };
        assert_eq!(rt; input.take(&mut bytes), Ok(count));
        listener.ended(
            input,
            output,
            nothing_served(rt.alloc(), ConnEnd::CloseAsked),
        );
    }
    Ok(())
}

// More than the system keeps for a peer that takes nothing.
const LONG: usize = 12_000_000;

#[test]
fn a_peer_that_takes_its_answer_slowly_holds_nobody_up(rt: HostRuntime) -> Result<(), Fail> {
    let port = free_port(&rt)?;
    let mut host = TcpHost::new(rt.alloc(), rt, Lines::silent(rt.alloc(), rt));
    let Ok(mut listener) = host.listener(port, 0) else {
        panic!(rt; "no listener");
    };
    let mut peer = joined(&rt, port)?;
    peer.write_all(b"a\n\n")?;
    let Ok((input, mut output)) = listener.accept() else {
        panic!(rt; "no connection");
    };
    let answer = Vec::from_elem(rt.alloc(), b'x', LONG)?;
    assert_eq!(rt; put_all(&mut output, &answer), Ok(()));
    listener.ended(
        input,
        output,
        nothing_served(rt.alloc(), ConnEnd::CloseAsked),
    );
    serve_one(&rt, rt.alloc(), port, &mut listener)?;
    let taken = thread::spawn(&rt, move || take_all(&rt, peer, port))?;
    let Ok((input, output)) = listener.accept() else {
        panic!(rt; "no connection");
    };
    listener.ended(
        input,
        output,
        nothing_served(rt.alloc(), ConnEnd::CloseAsked),
    );
    assert_eq!(rt; taken.join(&rt)?, LONG);
    Ok(())
}

// Takes an answer to its end, tells how long it was, and has the listener go on by another connection.
fn take_all<R: Net>(rt: &R, mut peer: R::Stream, port: u16) -> io::Result<usize> {
    let mut piece = [0; 65536];
    let mut taken = 0usize;
    for _ in 0..LONG {
        let count = peer.read(&mut piece)?;
        if count == 0 {
            break;
        }
        taken = taken.saturating_add(count);
    }
    joined(rt, port)?.write_all(b"b\n\n")?;
    Ok(taken)
}

fn joined<R: Net>(rt: &R, port: u16) -> io::Result<R::Stream> {
    rt.connect(SocketAddr::from((Ipv4Addr::LOCALHOST, port)))
}

// A peer sends two bytes and then no more, is answered with three, and then the connection ends.
fn serve_one<R: Abort + Net, L: Listener>(
    rt: &R,
    alloc: Global,
    port: u16,
    listener: &mut L,
) -> Result<(), Fail> {
    let mut peer = joined(rt, port)?;
    peer.write_all(b"ab")?;
    peer.shutdown(Shutdown::Write)?;
    let Ok((mut input, mut output)) = listener.accept() else {
        panic!(rt; "no connection");
    };
    let mut bytes = [0; 8];
    assert_eq!(rt; input.take(&mut bytes), Ok(2));
    assert_eq!(rt; bytes[..2], b"ab"[..]);
    assert_eq!(rt; input.take(&mut bytes), Ok(0));
    assert_eq!(rt; put_all(&mut output, b"cde"), Ok(()));
    listener.ended(input, output, nothing_served(alloc, ConnEnd::Closed));
    let mut answer = Vec::new(alloc);
    peer.read_to_end(&mut answer)?;
    assert_eq!(rt; answer.as_slice(), b"cde".as_slice());
    Ok(())
}

fn nothing_served(alloc: Global, end: ConnEnd) -> Served {
    Served {
        fronts: Vec::new(alloc),
        requests: 0,
        end,
    }
}
