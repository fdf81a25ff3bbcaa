//! WebSockets over streams in memory, whose peer is a client of `tungstenite`.
use session_doc::Site;
use spec_json::text::Text;
use std::alloc::{AllocError, Global};
use std::io::{self, Read, Write};
use std::process::Abort;
use std::test::Fail;
use tungstenite::{MaskKeys, Message, Role, WebSocket};
use ws_edge::handshake::shake_hands;
use ws_edge::link::{LinkError, WsIn, WsLink};
use ws_edge::socket_link::SocketLink;

const CONFIGURATION: &str =
    r#"{"baseUrl":"b","accounts":[{"id":"A1","name":"One"}],"users":[{"name":"ann","token":"t-ann","accounts":["A1"]}]}"#;

// A stream that gives these bytes and then ends, and keeps what is written.
#[derive(Drop)]
struct Memory {
    input: Vec<u8>,
    at: usize,
    output: Vec<u8>,
}

impl Memory {
    fn of(alloc: Global, input: &[u8]) -> Result<Memory, AllocError> {
        Ok(Memory {
            input: input.to_vec(alloc)?,
            at: 0,
            output: Vec::new(alloc),
        })
    }
}

impl Read for Memory {
    fn read(&mut self, buf: &mut [u8]) -> io::Result<usize> {
        let rest = self.input.get(self.at..).unwrap_or(&[]);
        let count = buf.len().min(rest.len());
        buf[..count].copy_from_slice(&rest[..count]);
        self.at = self.at.saturating_add(count);
        Ok(count)
    }
}

impl Write for Memory {
    fn write(&mut self, buf: &[u8]) -> io::Result<usize> {
        self.output.extend_from_slice(buf)?;
        Ok(buf.len())
    }

    fn flush(&mut self) -> io::Result<()> {
        Ok(())
    }
}

// The masking key of the example of RFC 6455 section 5.7.
#[derive(Drop)]
struct ExampleKey;

impl MaskKeys for ExampleKey {
    fn next_key(&mut self) -> [u8; 4] {
        [0x37, 0xfa, 0x21, 0x3d]
    }
}

// The head of the handshake of RFC 6455 section 1.3, with these fields more.
fn head_with(alloc: Global, fields: &str) -> Result<String, AllocError> {
    format!(in alloc;
        "GET /chat HTTP/1.1\r\nHost: server.example.com\r\nUpgrade: websocket\r\nConnection: Upgrade\r\nSec-WebSocket-Key: dGhlIHNhbXBsZSBub25jZQ==\r\nOrigin: http://example.com\r\nSec-WebSocket-Version: 13\r\n{fields}\r\n"
    )
}

#[test]
fn a_user_is_admitted_with_the_subprotocol(rt: HostRuntime) -> Result<(), Fail> {
    let alloc = rt.alloc();
    let Ok(site) = Site::read(alloc, CONFIGURATION.as_bytes()) else {
        panic!(rt; "no site");
    };
    let head = head_with(
        alloc,
        "Sec-WebSocket-Protocol: chat, jmap\r\nAuthorization: Bearer t-ann\r\n",
    )?;
    let stream = Memory::of(alloc, head.as_str().as_bytes())?;
    let Ok(Some((user, stream))) = shake_hands(alloc, stream, &site) else {
        panic!(rt; "nobody");
    };
    assert_eq!(rt; user, 0);
    let answer = String::from_utf8_lossy(alloc, &stream.output)?;
    assert!(rt;
        answer
            .as_str()
            .starts_with("HTTP/1.1 101 Switching Protocols\r\n")
    );
    assert!(rt;
        answer.as_str().contains("\r\nsec-websocket-accept: s3pPLMBiTxaQ9kYGzzhZRbK+xOo=\r\n")
    );
    assert!(rt;
        answer
            .as_str()
            .contains("\r\nsec-websocket-protocol: jmap\r\n")
    );
    Ok(())
}

#[test]
fn nobody_else_is_admitted(rt: HostRuntime) -> Result<(), Fail> {
    let alloc = rt.alloc();
    let Ok(site) = Site::read(alloc, CONFIGURATION.as_bytes()) else {
        panic!(rt; "no site");
    };
    for fields in [
        "Sec-WebSocket-Protocol: jmap\r\n",
        "Sec-WebSocket-Protocol: jmap\r\nAuthorization: Bearer t-eve\r\n",
        "Authorization: Bearer t-ann\r\n",
        "Sec-WebSocket-Protocol: jmapper\r\nAuthorization: Bearer t-ann\r\n",
    ] {
        let head = head_with(alloc, fields)?;
        let stream = Memory::of(alloc, head.as_str().as_bytes())?;
        match shake_hands(alloc, stream, &site) {
            Ok(None) => {}
            _ => panic!(rt; "at {fields}"),
        }
    }
    Ok(())
}

#[test]
fn a_client_is_read_and_answered(rt: HostRuntime) -> Result<(), Fail> {
    let alloc = rt.alloc();
    let nothing = Memory::of(alloc, b"")?;
    let mut client = WebSocket::from_raw_socket(alloc, nothing, ExampleKey, Role::Client, None);
    assert!(rt; client.send(Message::text(alloc, "Hello")?).is_ok());
    // a single-frame masked text message (RFC 6455 section 5.7)
    let frame = [
        0x81, 0x85, 0x37, 0xfa, 0x21, 0x3d, 0x7f, 0x9f, 0x4d, 0x51, 0x58,
    ];
    assert!(rt; client.get_ref().output.as_slice() == frame.as_slice());
    assert!(rt; client.close(None).is_ok());
    let mut link = SocketLink::new(alloc, Memory::of(alloc, &client.get_ref().output)?);
    match link.next() {
        Ok(WsIn::Text(text)) => assert!(rt; is_text(&text, "Hello")),
        _ => panic!(rt; "no text"),
    }
    assert!(rt; link.send(b"Hello").is_ok());
    // a single-frame unmasked text message (section 5.7)
    let answer = [0x81, 0x05, 0x48, 0x65, 0x6c, 0x6c, 0x6f];
    assert!(rt; link.stream().output.as_slice() == answer.as_slice());
    match link.next() {
        Ok(WsIn::Closed) => {}
        _ => panic!(rt; "not closed"),
    }
    // and the reply to the close
    assert!(rt; link.stream().output.as_slice().get(7..) == Some(&[0x88, 0x00]));
    Ok(())
}

fn is_text(text: &Text, wanted: &str) -> bool {
    text.as_str() == wanted
}

#[test]
fn a_frame_that_is_not_masked_is_refused(rt: HostRuntime) -> Result<(), Fail> {
    let alloc = rt.alloc();
    let frame = [0x81, 0x05, 0x48, 0x65, 0x6c, 0x6c, 0x6f];
    let mut link = SocketLink::new(alloc, Memory::of(alloc, &frame)?);
    match link.next() {
        Err(LinkError::Failed) => {}
        _ => panic!(rt; "taken"),
    }
    // a close with the code 1002
    assert!(rt; link.stream().output.as_slice() == [0x88, 0x02, 0x03, 0xea].as_slice());
    Ok(())
}
