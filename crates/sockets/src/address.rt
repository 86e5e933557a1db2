//! The address of a server.
ghost use Rattle.std.specs.Prelude.{ℕ, List, IsTrue, ◌↔◌, MatchOption, option_map};
ghost use Rattle.sockets.specs.Address.{HasPort, HasNoColon, IsAddress, IsBracketed, IsHost, IsPath, IsPathOf, IsPort, IsSplitAtColon};

use rmt_wire::argument::number_of;
use rmt_wire::find_byte;

const UNIX: &str = "unix:";

/// The most bytes in a Unix socket's path (unix(7)).
pub const PATH_LIMIT: usize = 107;

/// Returns whether a text is an address: a host, a colon and a port, or `unix:` and a path.
///
/// A host is not empty. With a colon, as in an IPv6 address, it is in brackets. A port is a number
/// of 16 bits, in digits only. A path begins with `/` and has at most `PATH_LIMIT` bytes.
pub fn is_address(text: &str) -> bool
    ensures { IsTrue result ↔ IsAddress text.now }
{
    match path_of(text) {
        Some(path) => path.len() <= PATH_LIMIT,
        None => has_port(text),
    }
}

/// Returns what follows `unix:`, if that begins with `/`. It may be longer than `PATH_LIMIT`.
/// `unix:4711` is a host with a port.
pub fn path_of(text: &str) -> Option<&str>
    ensures { MatchOption result (¬ (IsPath text.now)) (λ path. IsPathOf text.now path.now) }
{
    let path = text.strip_prefix(UNIX)?;
    if path.as_bytes().first() == Some(&b'/') {
        Some(path)
    } else {
        None
    }
}

/// A law: no text is both a host with a port and `unix:` with a path.
pub fn one_kind()
    ensures { (text : List ℕ) → HasPort text → ¬ (IsPath text) }
{}

fn has_port(text: &str) -> bool
    ensures { IsTrue result ↔ HasPort text.now }
{
    match split_port(text) {
        Some((host, port)) => is_host_and_port(host, port),
        None => false,
    }
}

fn split_port(text: &str) -> Option<(&str, &str)>
    ensures { IsSplitAtColon text.now (option_map (λ parts. (parts.0.now, parts.1.now)) result) }
{
    text.rsplit_once(':')
}

fn is_host_and_port(host: &str, port: &str) -> bool
    ensures { IsTrue result ↔ IsHost host.now × IsPort port.now }
{
    is_host(host) && is_port(port)
}

fn is_host(text: &str) -> bool
    ensures { IsTrue result ↔ IsHost text.now }
{
    is_plain(text.as_bytes()) || is_bracketed(text.as_bytes())
}

fn is_plain(text: &[u8]) -> bool
    ensures { IsTrue result ↔ HasNoColon text.now }
{
    match find_byte(text, b':') {
        None => !text.is_empty(),
        Some(_) => false,
    }
}

fn is_bracketed(text: &[u8]) -> bool
    ensures { IsTrue result ↔ IsBracketed text.now }
{
    match text {
        [b'[', .., b']'] => true,
        _ => false,
    }
}

fn is_port(text: &str) -> bool
    ensures { IsTrue result ↔ IsPort text.now }
{
    match number_of(text) {
        Some(number) => number <= u64::from(u16::MAX),
        None => false,
    }
}
