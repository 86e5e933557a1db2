//! Feeds one of the two readers of `rmt_wire` with a stream in memory, piece by piece, and takes
//! what it returns after each piece. It prints nothing: `bench/feed.py` measures how long it takes.
#![tactic(auto)]

ghost use Rattle.std.specs.Prelude.{◌<◌};

mod feed;

use feed::{Kind, feed};
use std::process::ExitCode;
use std::{env, io};

/// The exit status if the arguments are wrong, or if a reader did not return what it was fed.
const WRONG: u8 = 1;

/// The arguments: the kind of input, how often it is fed, and the length of each piece, in bytes.
#[derive(Drop)]
struct Arguments {
    kind: Kind,
    count: u32,
    piece: usize,
    ghost some_bytes: { 0 < piece },
}

/// Reads the arguments `KIND COUNT PIECE`. Returns `None` if they are not these three, or if
/// `PIECE` is 0.
fn arguments_of(rt: &HostRuntime) -> io::Result<Option<Arguments>> {
    let mut arguments = env::args(rt)?.skip(1);
    let (Some(kind), Some(count), Some(piece), None) = (
        arguments.next(),
        arguments.next(),
        arguments.next(),
        arguments.next(),
    ) else {
        return Ok(None);
    };
    let kind = Kind::named(kind.as_str());
    let count = count.as_str().parse::<u32>().ok();
    let piece = piece.as_str().parse::<usize>().ok();
    match (kind, count, piece) {
        (Some(kind), Some(count), Some(piece)) if piece > 0 => Ok(Some(Arguments {
            kind,
            count,
            piece,
        })),
        _ => Ok(None),
    }
}

fn main(rt: HostRuntime) -> io::Result<ExitCode> {
    let Some(Arguments { kind, count, piece }) = arguments_of(&rt)? else {
        return Ok(ExitCode::from(WRONG));
    };
    let is_fed = feed(rt.alloc(), kind, count, piece)?;
    Ok(ExitCode::from(if is_fed { 0 } else { WRONG }))
}
