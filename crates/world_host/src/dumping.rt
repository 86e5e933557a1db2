//! Attempts of the client.

ghost use Rattle.std.specs.Prelude.{◌≡◌};
ghost use Rattle.world_model.specs.Changes.{noted_sent, accepted, noted_error};
ghost use Rattle.world_host.specs.Attempt.{new_dumping, noted_record, noted_mark, noted_carried};

use crate::{Answered, Carried, RequestKind};
use rmt_wire::errno::EIO;
use std::marker::Model;

/// An attempt of the client: how many of its requests were sent and carried out, and which of its
/// writes were accepted. Numbers of requests and blocks stop at `u64::MAX`.
#[derive(Drop)]
pub struct AttemptState {
    run: usize,
    volume: u32,
    first: u32,
    sent: u64,
    carried: u64,
    label: bool,
    blocks: u64,
    mark: bool,
    fault: bool,
}

impl Model for AttemptState {
    ghost use Rattle.world_model.specs.World.{AttemptState};

    ghost Value = { AttemptState };

    ghost view = { λ d. record {
      run = d.run;
      volume = d.volume;
      first = d.first;
      sent = d.sent;
      carried = d.carried;
      label = d.label;
      blocks = d.blocks;
      mark = d.mark;
      fault = d.fault;
    } };
}

impl AttemptState {
    /// Makes a new attempt with the given run, volume and first block.
    pub fn new(run: usize, volume: u32, first: u32) -> AttemptState
        ensures { result ≡ new_dumping run volume first }
    {
        AttemptState {
            run,
            volume,
            first,
            sent: 0,
            carried: 0,
            label: false,
            blocks: 0,
            mark: false,
            fault: false,
        }
    }

    pub(crate) fn note_sent(&mut self)
        ensures { self.new ≡ noted_sent self.old }
    {
        self.sent = self.sent.saturating_add(1);
    }

    pub(crate) fn note_carried(&mut self, carried: Carried)
        ensures { self.new ≡ noted_carried carried self.old }
    {
        match carried.asked {
            RequestKind::Open { .. } | RequestKind::WriteDropped | RequestKind::Other => {}
            RequestKind::Write => self.note_write(carried.answered),
            RequestKind::Marks => self.note_marks(carried.answered),
        }
        self.carried = self.carried.saturating_add(1);
    }

    /// Notes the reply to a write of a record, unless no byte was written.
    fn note_write(&mut self, answered: Answered)
        ensures { self.new ≡ noted_record self.old answered }
    {
        match answered {
            Answered::Number(0) | Answered::Data => {}
            Answered::Number(_) => self.note_accepted(),
            Answered::Error(number) => self.note_error(number),
        }
    }

    /// Notes an accepted write of a record: first that of the label, then those of blocks.
    fn note_accepted(&mut self)
        ensures { self.new ≡ accepted self.old }
    {
        if self.label {
            self.blocks = self.blocks.saturating_add(1);
        } else {
            self.label = true;
        }
    }

    fn note_marks(&mut self, answered: Answered)
        ensures { self.new ≡ noted_mark self.old answered }
    {
        match answered {
            Answered::Number(_) => self.mark = true,
            Answered::Data => {}
            Answered::Error(number) => self.note_error(number),
        }
    }

    /// Notes the error in reply to a write. `EIO` is a device fault.
    fn note_error(&mut self, number: u32)
        ensures { self.new ≡ noted_error self.old number }
    {
        if number == EIO {
            self.fault = true;
        }
    }
}
