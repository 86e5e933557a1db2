//! A peer over a socket, in one thread. What is sent waits in the socket.

use rdump_net::{Peer, SocketPeer};
use sockets::Listener;
use std::alloc::Global;
use std::io::{ErrorKind, Read, Write};
use std::test::Fail;
use std::time::Duration;

/// The address of a Unix socket in the folder of the test.
const UNIX: &str = "unix:/proc/self/cwd/socket";

/// How long a peer waits for a server that is silent, in milliseconds.
const SHORT_MILLIS: u64 = 50;

/// Whether a request arrives at the server's side of a connection. The server replies to it.
fn is_heard(server: &mut (impl Read + Write)) -> bool {
    let mut asked = [0; 5];
    server.read_exact(&mut asked).is_ok()
        && asked == *b"I7\n1\n"
        && server.write_all(b"A1\n").is_ok()
}

/// Whether the reply arrives at the peer, which then hangs up.
fn is_answered(peer: &mut impl Peer) -> bool {
    let mut into = [0; 8];
    let count = peer.receive(&mut into);
    peer.hang_up();
    count == 3 && into.starts_with(b"A1\n")
}

/// Whether a connection carries a request and its reply, and ends after the peer hangs up.
fn carries_a_request(server: &mut (impl Read + Write), peer: &mut impl Peer) -> bool {
    let carried = peer.send(b"I7\n1\n") && is_heard(server) && is_answered(peer);
    carried && matches!(server.read(&mut [0; 8]), Ok(0))
}

/// Runs `carries_a_request` with the next connection that this listener accepts.
fn carries_to(listener: &Listener, peer: &mut impl Peer) -> bool {
    match listener.accept() {
        Ok((mut server, _)) => carries_a_request(&mut server, peer),
        Err(_) => false,
    }
}

/// Returns the address of a listener at a host or at `UNIX`.
fn address_of(alloc: Global, listener: &Listener) -> Result<String, Fail> {
    match listener.local_addr()? {
        Some(address) => Ok(format!(in alloc; "{address}")?),
        None => Ok(String::from_str(alloc, UNIX)?),
    }
}

/// Whether a peer that connects to this listener carries a request to it.
fn reaches(rt: &HostRuntime, listener: &Listener, timeout: Option<Duration>) -> Result<bool, Fail> {
    let address = address_of(rt.alloc(), listener)?;
    let mut peer = SocketPeer::new(rt, address.as_str(), timeout);
    Ok(peer.connect() && carries_to(listener, &mut peer) && peer.failure().is_none())
}

/// Whether a peer gives up the wait for the reply of a server that is silent. Its connection then
/// stays closed.
fn gives_up(rt: &HostRuntime, listener: &Listener) -> Result<bool, Fail> {
    let address = address_of(rt.alloc(), listener)?;
    let mut peer = SocketPeer::new(
        rt,
        address.as_str(),
        Some(Duration::from_millis(SHORT_MILLIS)),
    );
    let has_sent = peer.connect() && peer.send(b"I7\n1\n");
    let has_ended = peer.receive(&mut [0; 8]) == 0 && !peer.send(b"C\n");
    Ok(has_sent && has_ended && has_timed_out(&peer))
}

/// Whether the peer keeps the error that a wait took too long.
fn has_timed_out(peer: &SocketPeer<'_, HostRuntime>) -> bool {
    match peer.failure() {
        Some(error) => error.kind() == ErrorKind::TimedOut,
        None => false,
    }
}

#[test]
fn a_connection_to_a_host(rt: HostRuntime) -> Result<(), Fail> {
    let listener = Listener::bind(&rt, "127.0.0.1:0")?;
    assert!(rt; reaches(&rt, &listener, None)?);
    assert!(rt; reaches(&rt, &listener, Some(Duration::from_secs(60)))?);
    assert!(rt; gives_up(&rt, &listener)?);
    Ok(())
}

#[test]
fn a_connection_to_a_unix_socket(rt: HostRuntime) -> Result<(), Fail> {
    let listener = Listener::bind(&rt, UNIX)?;
    assert!(rt; reaches(&rt, &listener, None)?);
    assert!(rt; reaches(&rt, &listener, Some(Duration::from_secs(60)))?);
    assert!(rt; gives_up(&rt, &listener)?);
    Ok(())
}

/// If there is no server, the system's reason is kept.
#[test]
fn no_connection(rt: HostRuntime) {
    for address in ["127.0.0.1:1", "unix:/proc/self/cwd/nothing"] {
        let mut peer = SocketPeer::new(&rt, address, None);
        assert!(rt; !peer.connect());
        assert!(rt; peer.failure().is_some());
    }
}
