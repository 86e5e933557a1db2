//! How often a dump without an operator tries again.
ghost use Rattle.std.specs.Prelude.{◌≡◌};
ghost use Rattle.rdump_net.specs.Retries.{is_hopeless, is_hopeless_attempt, is_hopeless_look, is_lasting, left_after, tries_again};

use dump_client::AttemptFault;
use remote_tape::{CallFault, TapeCause, TapeFault};
use rmt_wire::errno::{EACCES, EBADF, EINVAL, ENOENT};
use std::marker::Model;

/// Why an attempt of a dump failed or did not begin.
#[derive(Clone, Copy, Debug, PartialEq, Eq)]
pub enum Setback {
    /// The attempt failed with this fault.
    Attempt(AttemptFault),
    /// The attempt did not begin, because the reel is protected.
    Protected,
    /// The attempt did not begin, because the look at the reel failed with this fault.
    Look(TapeFault),
}

/// Decides whether a dump without an operator tries again after a setback.
///
/// It allows a given number of tries after setbacks in a row. A counted volume makes all of them
/// available again. It allows no try for a setback that stays however long one waits.
#[derive(Drop)]
pub struct Retries {
    times: u32,
    left: u32,
}

impl Model for Retries {
    ghost use Rattle.rdump_net.specs.Retries.{TriesLeft};

    ghost Value = { TriesLeft };

    ghost view = { λ r. record { times = r.times; left = r.left } };
}

impl Retries {
    /// Allows `times` tries after setbacks in a row.
    pub fn new(times: u32) -> Self
        ensures times { result.times ≡ times }
        ensures left { result.left ≡ times }
    {
        Retries { times, left: times }
    }

    /// Takes note of a counted volume.
    pub fn counted(&mut self)
        ensures times { self.new.times ≡ self.old.times }
        ensures left { self.new.left ≡ self.old.times }
    {
        self.left = self.times;
    }

    /// Returns whether to try again after a setback. If so, one try fewer is left. Returns false if
    /// no try is left or the setback stays; then nothing changes.
    ///
    /// These setbacks stay:
    ///
    /// - a protected reel;
    /// - a refusal with ENOENT, EBADF, EACCES or EINVAL;
    /// - `Botched`: bytes that are no reply, or a reply that the protocol does not allow;
    /// - a short write, a fault of the source, a reel that is too small, or a counted reel.
    pub fn take(&mut self, setback: Setback) -> bool
        ensures again { result ≡ tries_again (is_hopeless setback) self.old.left }
        ensures left { self.new.left ≡ left_after (is_hopeless setback) self.old.left }
        ensures times { self.new.times ≡ self.old.times }
    {
        if self.left == 0 || stays(setback) {
            return false;
        }
        self.left -= 1;
        true
    }
}

fn stays(setback: Setback) -> bool
    ensures { result ≡ is_hopeless setback }
{
    match setback {
        Setback::Attempt(fault) => stays_attempt(fault),
        Setback::Protected => true,
        Setback::Look(fault) => stays_look(fault.cause),
    }
}

fn stays_attempt(fault: AttemptFault) -> bool
    ensures { result ≡ is_hopeless_attempt fault }
{
    match fault {
        AttemptFault::Refused(number) => is_lasting_errno(number),
        AttemptFault::Botched
        | AttemptFault::ShortWrite
        | AttemptFault::ReelTooSmall
        | AttemptFault::SourceFault
        | AttemptFault::CountedReel(_) => true,
        AttemptFault::ConnectionEnded | AttemptFault::OutOfMemory => false,
    }
}

fn stays_look(cause: TapeCause) -> bool
    ensures { result ≡ is_hopeless_look cause }
{
    match cause {
        TapeCause::Refused(number) => is_lasting_errno(number),
        TapeCause::NoReply(fault) => fault == CallFault::Botched,
    }
}

fn is_lasting_errno(number: u32) -> bool
    ensures { result ≡ is_lasting number }
{
    matches!(number, ENOENT | EBADF | EACCES | EINVAL)
}
