//! The command `websocket` over the system's sockets.

use command_line::websocket::Websocket;
use io_edge::system_clock::SystemClock;
use io_edge::system_files::SystemFiles;
use jmapd_run::status::Status;
use ws_edge::tcp_accept::TcpAccept;
use ws_run::run::listen_ws;

/// Serves WebSockets, one after the other. A line on standard error tells first that nothing is kept.
pub fn run_sockets(rt: HostRuntime, asked: Websocket<'_>) -> Status {
    let _ = rt.eprintln("jmapd: nothing is kept");
    listen_ws(
        rt.alloc(),
        &asked,
        &mut SystemFiles::new(rt.alloc(), rt),
        &mut TcpAccept::new(rt.alloc(), rt),
        &mut SystemClock::new(rt),
    )
}
