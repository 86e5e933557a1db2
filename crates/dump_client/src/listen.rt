//! Reads the replies that a client waits for.
ghost use Rattle.std.specs.Prelude.{◌≡◌, ℕ, List, ◌++◌, Some};
ghost use Rattle.rmt_wire.specs.Lent.{plain_reply};
ghost use Rattle.rmt_wire.specs.Reply.{Wanted};
ghost use Rattle.rmt_wire.specs.ReplyReader.{ReplyUnread};
ghost use Rattle.dump_client.specs.Script as script;
ghost use Rattle.dump_client.specs.Listening.{IsReaderWaiting, IsHeardAs, IsReplyHeard, IsFeedResult};

use crate::{Run, VolumeCount, VolumeLabel};
use dump_run::label;
use rmt_wire::{Reply, ReplyReader, WireFault};

/// The part of a reply on which a client depends.
#[derive(Clone, Copy)]
pub(crate) enum ReplySummary {
    /// The number that an operation returned.
    Number(u32),
    /// The bytes of a record: the counted volume whose label they are, if there is one.
    Looked(Option<u32>),
    /// The number of an error.
    Error(u32),
}

/// A reply that came, and the label that it contains.
#[derive(Drop)]
pub(crate) struct HeardReply {
    pub(crate) summary: ReplySummary,
    pub(crate) label: Option<VolumeLabel>,
}

/// The result of the bytes that came while a reply is awaited.
#[derive(Drop)]
pub(crate) enum FeedResult {
    /// They are the beginning of a reply.
    Waits,
    /// They begin with a reply. `more`: further bytes follow it.
    Reply { heard: HeardReply, more: bool },
    /// They do not begin a reply.
    Noise,
}

/// Returns the first of these counted volumes whose label the bytes are.
fn counted_label(run: &Run, counts: &[VolumeCount], bytes: &[u8]) -> Option<u32>
    ensures { result ≡ script.counted_label run.now counts.now bytes.now }
{
    for count in counts {
        if bytes == label(run, count.volume, count.first).as_slice() {
            return Some(count.volume);
        }
    }
    None
}

fn without_text(reply: Reply<'_>, run: &Run, counts: &[VolumeCount]) -> HeardReply
    ensures { IsHeardAs run.now counts.now (plain_reply reply.entry) result }
{
    match reply {
        Reply::Done { number } => HeardReply {
            summary: ReplySummary::Number(number),
            label: None,
        },
        Reply::Data { bytes } => HeardReply {
            summary: ReplySummary::Looked(counted_label(run, counts, bytes)),
            label: VolumeLabel::read(bytes),
        },
        Reply::Error { number, .. } => HeardReply {
            summary: ReplySummary::Error(number),
            label: None,
        },
    }
}

/// Reads the awaited reply. Returns None if it is not complete.
fn hear(
    reader: &mut ReplyReader,
    run: &Run,
    counts: &[VolumeCount],
) -> Result<Option<HeardReply>, WireFault>
    ensures heard { (wanted : Wanted) (bytes : List ℕ) → ReplyUnread reader.old (Some wanted) bytes →
        IsReplyHeard run.now counts.now wanted bytes result reader.new }
{
    match reader.next()? {
        None => Ok(None),
        Some(reply) => Ok(Some(without_text(reply, run, counts))),
    }
}

/// Pushes a piece of the stream to a reader that waits for a reply, up to the end of the first
/// reply.
pub(crate) fn listen(
    reader: &mut ReplyReader,
    run: &Run,
    counts: &[VolumeCount],
    piece: &[u8],
) -> FeedResult
    requires waiting { (wanted : Wanted) × (bytes : List ℕ) × IsReaderWaiting wanted reader.old bytes }
    ensures feed_result { (wanted : Wanted) (bytes : List ℕ) → IsReaderWaiting wanted reader.old bytes →
        IsFeedResult run.now counts.now wanted (bytes ++ piece.now) result reader.new }
{
    let mut at = 0;
    while at < piece.len() {
        at += reader.push(&piece[at..]);
        match hear(reader, run, counts) {
            Ok(None) => {}
            Ok(Some(heard)) => {
                let more = !reader.is_empty() || at < piece.len();
                return FeedResult::Reply { heard, more };
            }
            Err(_) => return FeedResult::Noise,
        }
    }
    FeedResult::Waits
}
