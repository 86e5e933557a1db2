//! Conversations of a client, as tables of moves.

use super::script::{Script, Volume, script_of};
use dump_client::{
    Answer, AttemptFault, Client, ListBlocks, Progress, Run, StartFault, State, VolumeCount,
};
use std::alloc::Global;
use std::process::Abort;
use std::test::Fail;

/// One move of a conversation, and its expected outcome. Steps of a script count from 0.
pub(crate) enum Move {
    /// From here on the script of this volume is used.
    Writes(Volume),
    /// An attempt is started, with this result.
    Starts(Result<(), StartFault>),
    /// The client sends the script's requests and is fed its replies, from the first of these steps
    /// up to the second, which is excluded.
    Goes(usize, usize),
    /// The client sends the script's request of this step.
    Asks(usize),
    /// The client writes no request, and returns this.
    AsksNot(Result<bool, AttemptFault>),
    /// The client is fed a piece of a reply, and returns this.
    Hears(&'static [u8], Progress),
    /// The client is fed a piece of a reply, and returns this with the label of this name, level,
    /// date and volume, or with none.
    Finds(&'static [u8], Progress, Option<(&'static str, u8, u64, u32)>),
    /// An attempt is started, goes up to this step, and is fed a piece, with this result. Then the
    /// connection ends and the operator retries, and nothing is counted.
    At(usize, &'static [u8], Progress),
    /// The connection ends, with this result.
    Ends(Progress),
    /// The operator answers, with this result.
    Takes(Answer, Result<(), StartFault>),
    /// From here on reads of the payload fail, or succeed again.
    Trouble(bool),
    /// The client is in this state, with these counts, and this volume and block come next.
    Stands(State, &'static [VolumeCount], (u32, u32)),
    /// The checkpoint is appended to a buffer, as this text.
    Saves(&'static [u8]),
    /// The finished dump has this name, level and date.
    Tells(&'static str, u8, u64),
}

/// The values of a run, except its number of blocks. Each byte of a block is its number modulo 256.
pub(crate) struct Dumped {
    pub(crate) device: &'static [u8],
    pub(crate) name: &'static str,
    pub(crate) level: u64,
    pub(crate) date: u64,
    pub(crate) since: u64,
    pub(crate) block_bytes: u64,
}

/// The run of most of these tests.
pub(crate) const USR: &Dumped = &Dumped {
    device: b"/dev/st0",
    name: "/usr",
    level: 0,
    date: 951782400,
    since: 0,
    block_bytes: 1024,
};

/// A conversation.
pub(crate) struct Case {
    pub(crate) name: &'static str,
    pub(crate) dumped: &'static Dumped,
    pub(crate) blocks: u32,
    pub(crate) moves: &'static [Move],
}

/// A client, the script of its volume, and a buffer for what it writes.
#[derive(Drop)]
struct Play {
    client: Client<ListBlocks>,
    script: &'static Script,
    asked: Vec<u8>,
}

/// Returns a payload of `blocks` blocks of `size` bytes. Each byte of a block is its number modulo
/// 256.
pub(crate) fn payload(alloc: Global, blocks: u32, size: usize) -> Result<Vec<u8>, Fail> {
    let mut payload = Vec::new(alloc);
    for number in 0..blocks {
        let end = payload.len().saturating_add(size);
        payload.resize(end, (number % 256) as u8)?;
    }
    Ok(payload)
}

/// Returns a client for a run of `blocks` blocks. No attempt has started.
fn client_of(alloc: Global, dumped: &Dumped, blocks: u32) -> Result<Client<ListBlocks>, Fail> {
    let size = dumped.block_bytes as usize;
    let payload = payload(alloc, blocks, size)?;
    if (blocks as usize).checked_mul(size) != Some(payload.len()) {
        return Err(Fail::new("the payload has another size"));
    }
    let Ok(run) = Run::new(
        dumped.device,
        dumped.name,
        dumped.level,
        dumped.date,
        dumped.since,
        dumped.block_bytes,
        u64::from(blocks),
    ) else {
        return Err(Fail::new("no run"));
    };
    let source = ListBlocks::new(payload, size, blocks);
    Ok(Client::new(alloc, run, source)?)
}

/// Whether each of these bytes is `wanted`.
fn are_all(bytes: &[u8], wanted: u8) -> bool {
    for byte in bytes {
        if *byte != wanted {
            return false;
        }
    }
    true
}

/// Whether the bytes are `text`, followed by `byte` this many times.
fn is_filled(bytes: &[u8], text: &[u8], (byte, times): (u8, usize)) -> bool {
    match bytes.strip_prefix(text) {
        Some(rest) => rest.len() == times && are_all(rest, byte),
        None => false,
    }
}

impl Play {
    /// Whether the client sends exactly the script's request of this step.
    fn asks(&mut self, step: usize) -> bool {
        let Some((text, fill, _, _)) = self.script.steps.get(step) else {
            return false;
        };
        self.asked.clear();
        self.client.state() == State::ToSend
            && self.client.next_request(&mut self.asked) == Ok(true)
            && is_filled(&self.asked, text, *fill)
            && self.client.state() == State::Waiting
    }

    /// Whether the client writes no request, and returns this.
    fn asks_not(&mut self, told: Result<bool, AttemptFault>) -> bool {
        self.asked.clear();
        self.client.next_request(&mut self.asked) == told && self.asked.is_empty()
    }

    /// Whether the client is fed the script's reply of this step, with the result in the script.
    fn hears(&mut self, step: usize) -> bool {
        match self.script.steps.get(step) {
            Some((_, _, reply, progress)) => self.client.feed(reply) == *progress,
            None => false,
        }
    }

    /// Whether the client goes through the script from step `from` up to step `to`, which is
    /// excluded.
    fn goes(&mut self, from: usize, to: usize) -> bool {
        for step in from..to {
            if !self.asks(step) || !self.hears(step) {
                return false;
            }
        }
        true
    }

    /// Whether an attempt is started, goes up to this step, and is fed a piece, with this result.
    fn comes_to(&mut self, step: usize, piece: &[u8], progress: Progress) -> bool {
        self.client.start() == Ok(())
            && self.goes(0, step)
            && self.asks(step)
            && self.client.feed(piece) == progress
    }

    /// Whether the client is fed a piece, with this result and this label, or none.
    fn finds(
        &mut self,
        piece: &[u8],
        progress: Progress,
        label: Option<(&str, u8, u64, u32)>,
    ) -> bool {
        let (told, found) = self.client.feed_finding_label(piece);
        told == progress
            && match &found {
                Some(it) => label == Some((it.name(), it.level(), it.date(), it.volume())),
                None => label.is_none(),
            }
    }

    /// Ends the connection and has the operator retry. Returns whether nothing was counted.
    fn tries_anew(&mut self) -> bool {
        self.client.ended();
        self.client.answer(Answer::Retry) == Ok(())
            && self.stands(State::Ready, self.script.counted, self.script.next)
    }

    /// Whether the client is in this state, with these counts, and this volume and block come next.
    fn stands(&self, state: State, counts: &[VolumeCount], next: (u32, u32)) -> bool {
        self.client.state() == state
            && self.client.counted() == counts
            && self.client.checkpoint() == next
            && self.client.finished().is_some() == (state == State::Finished)
    }

    /// Whether the run is finished, with this name, level and date.
    fn tells(&self, name: &str, level: u8, date: u64) -> bool {
        match self.client.finished() {
            Some(entry) => (entry.name, entry.level, entry.date) == (name, level, date),
            None => false,
        }
    }

    /// Whether the checkpoint is appended to a buffer, as this text.
    fn saves(&mut self, text: &[u8]) -> bool {
        self.asked.clear();
        self.asked.extend_from_slice(b"before").is_ok()
            && self.client.checkpoint_text(&mut self.asked).is_ok()
            && self.asked.as_slice().strip_prefix(b"before") == Some(text)
    }

    /// Uses the script of this volume from here on.
    fn turns_to(&mut self, volume: &Volume) -> bool {
        self.script = script_of(volume);
        true
    }

    /// Sets whether reads of the payload fail.
    fn has_trouble(&mut self, fails: bool) -> bool {
        self.client.source_trouble(fails);
        true
    }

    /// Makes a move. Returns whether it had the expected outcome.
    fn makes(&mut self, next: &Move) -> bool {
        match next {
            Move::Starts(told) => self.client.start() == *told,
            Move::Goes(from, to) => self.goes(*from, *to),
            Move::Asks(step) => self.asks(*step),
            Move::AsksNot(told) => self.asks_not(*told),
            Move::Hears(piece, progress) => self.client.feed(piece) == *progress,
            Move::At(step, piece, progress) => {
                self.comes_to(*step, piece, *progress) && self.tries_anew()
            }
            _ => self.makes_other(next),
        }
    }

    /// Makes a move of the other kinds.
    fn makes_other(&mut self, next: &Move) -> bool {
        match next {
            Move::Writes(volume) => self.turns_to(volume),
            Move::Ends(progress) => self.client.ended() == *progress,
            Move::Takes(answer, told) => self.client.answer(*answer) == *told,
            Move::Trouble(fails) => self.has_trouble(*fails),
            Move::Stands(state, counts, next) => self.stands(*state, counts, *next),
            Move::Saves(text) => self.saves(text),
            Move::Finds(piece, progress, label) => self.finds(piece, *progress, *label),
            Move::Tells(name, level, date) => self.tells(name, *level, *date),
            _ => false,
        }
    }
}

/// Returns the number of the first move with another outcome, counted from 0.
fn wrong_move(play: &mut Play, moves: &[Move]) -> Option<usize> {
    for (at, next) in moves.iter().enumerate() {
        if !play.makes(next) {
            return Some(at);
        }
    }
    None
}

/// Returns the number of the first move with another outcome, in a conversation with a new client.
fn wrong_in(alloc: Global, case: &Case) -> Result<Option<usize>, Fail> {
    let mut play = Play {
        client: client_of(alloc, case.dumped, case.blocks)?,
        script: script_of(&Volume::NoBlocks),
        asked: Vec::new(alloc),
    };
    Ok(wrong_move(&mut play, case.moves))
}

/// Checks that each conversation goes as its moves say.
pub(crate) fn check_cases(rt: &impl Abort, alloc: Global, cases: &[Case]) -> Result<(), Fail> {
    for case in cases {
        let wrong = wrong_in(alloc, case)?;
        assert!(rt; wrong.is_none(), "{}: move {wrong:?}", case.name);
    }
    Ok(())
}
