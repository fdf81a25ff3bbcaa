//! What the words of the command line ask for.
use command_line::command::{Command, read_command};
use command_line::websocket::Websocket;
use std::alloc::{AllocError, Global};
use std::test::Fail;

#[test]
fn batch_may_name_a_configuration_and_a_user(rt: HostRuntime) -> Result<(), Fail> {
    for (line, wanted) in [
        ("batch", (None, None)),
        ("batch --config site.json", (Some("site.json"), None)),
        ("batch --user=u", (None, Some("u"))),
        ("batch --user u --config=c", (Some("c"), Some("u"))),
        ("batch --config -", (Some("-"), None)),
    ] {
        let words = words_of(rt.alloc(), line)?;
        match read_command(rt.alloc(), &words)? {
            Some(Command::Batch { config, user }) => assert_eq!(rt; (config, user), wanted),
            _ => assert!(rt; false, "at {line}"),
        }
    }
    Ok(())
}

#[test]
fn stdio_names_a_configuration(rt: HostRuntime) -> Result<(), Fail> {
    for (line, wanted) in [
        ("stdio --config site.json", "site.json"),
        ("stdio --config=a=b", "a=b"),
    ] {
        let words = words_of(rt.alloc(), line)?;
        match read_command(rt.alloc(), &words)? {
            Some(Command::Stdio { config }) => assert_eq!(rt; config, wanted),
            _ => assert!(rt; false, "at {line}"),
        }
    }
    Ok(())
}

#[test]
fn listen_names_a_configuration_and_a_port(rt: HostRuntime) -> Result<(), Fail> {
    for (line, wanted) in [
        ("listen --config c --port 80", ("c", 80, 16, 1_000_000)),
        (
            "listen --port=65535 --config=c",
            ("c", 65535, 16, 1_000_000),
        ),
        (
            "listen --config c --port 1 --workers 255 --connections 9",
            ("c", 1, 255, 9),
        ),
    ] {
        let words = words_of(rt.alloc(), line)?;
        match read_command(rt.alloc(), &words)? {
            Some(Command::Listen(asked)) => assert_eq!(rt;
                (asked.config, asked.port, asked.workers, asked.connections),
                wanted
            ),
            _ => assert!(rt; false, "at {line}"),
        }
    }
    Ok(())
}

#[test]
fn listen_may_serve_sockets_beside(rt: HostRuntime) -> Result<(), Fail> {
    for (line, wanted) in [
        ("listen --config c --port 80", None),
        (
            "listen --config c --port 80 --sockets-port 81",
            Some((81, 64)),
        ),
        (
            "listen --config c --port 80 --sockets-port=65535 --socket-workers 240",
            Some((65535, 240)),
        ),
        (
            "listen --config c --port 80 --workers 1 --socket-workers 255 --sockets-port 1",
            Some((1, 255)),
        ),
    ] {
        let words = words_of(rt.alloc(), line)?;
        match read_command(rt.alloc(), &words)? {
            Some(Command::Listen(asked)) => {
                let sockets = asked.sockets.map(|crew| (crew.port, crew.workers));
                assert_eq!(rt; sockets, wanted, "at {line}");
            }
            _ => assert!(rt; false, "at {line}"),
        }
    }
    Ok(())
}

#[test]
fn other_words_ask_for_nothing(rt: HostRuntime) -> Result<(), Fail> {
    assert!(rt; read_command(rt.alloc(), &[])?.is_none());
    for line in [
        "",
        "listen",
        "listen --config c",
        "listen --config c --port 0",
        "listen --config c --port 80 --workers 256",
        "listen --config c --port 80 --sockets-port 80",
        "listen --config c --port 80 --sockets-port 0",
        "listen --config c --port 80 --sockets-port 81 --socket-workers 0",
        "listen --config c --port 80 --sockets-port 81 --socket-workers 241",
        "listen --config c --port 80 --workers 193 --sockets-port 81",
        "listen --config c --port 80 --socket-workers 1",
        "stdio --config c --sockets-port 81",
        "Batch",
        "jmapd batch",
        "batch more",
        "batch --help",
        "batch -h",
        "batch --version",
        "batch -V",
        "batch --config",
        "batch --config --user u",
        "batch --config a --config b",
        "batch --conf a",
        "batch --user u --port 80",
        "stdio",
        "stdio --user u",
        "stdio --config c --user u",
        "stdio help",
    ] {
        let words = words_of(rt.alloc(), line)?;
        assert!(rt; read_command(rt.alloc(), &words)?.is_none(), "at {line}");
    }
    Ok(())
}

fn words_of(alloc: Global, line: &str) -> Result<Vec<String>, AllocError> {
    let mut words = Vec::new(alloc);
    for word in line.split(' ') {
        words.push(String::from_str(alloc, word)?)?;
    }
    Ok(words)
}

#[test]
fn websocket_names_a_configuration_and_a_port(rt: HostRuntime) -> Result<(), Fail> {
    for (line, wanted) in [
        ("websocket --config c --port 80", Some(("c", 80, 1_000_000))),
        (
            "websocket --port=65535 --config=c --connections 1",
            Some(("c", 65535, 1)),
        ),
        ("websocket --config c", None),
        ("websocket --config c --port 0", None),
        ("websocket --config c --port 65536", None),
        ("websocket --config c --port 80 --connections 0", None),
        ("websocket --config c --port 80 --workers 2", None),
        ("listen --config c --port 80", None),
    ] {
        let words = words_of(rt.alloc(), line)?;
        let asked = Websocket::read(rt.alloc(), &words)?;
        let came = asked.map(|asked| (asked.config, asked.port, asked.connections));
        assert_eq!(rt; came, wanted, "at {line}");
        assert!(rt; read_command(rt.alloc(), &words)?.is_none() || line.starts_with("listen"));
    }
    Ok(())
}
