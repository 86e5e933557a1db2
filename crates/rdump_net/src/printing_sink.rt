//! A sink that prints the label of a volume, and writes the records after it to a file.
ghost use Rattle.std.specs.Prelude.{◌≡◌, ◌≤◌, IfSome, length, nat_eq, position, true};
ghost use Rattle.rdump_net.specs.PrintingSink.{TakesPrinted};
ghost use Rattle.rdump_net.specs.Reading as spec;
ghost use Rattle.rdump_net.specs.Sink.{goes_on, has_accepted};
ghost use Rattle.rdump_net.specs.Sink.SinkCall.{Label, Block, Mark, Complete};
ghost use Rattle.rmt_wire.specs.Print.{IsPrinted};

use crate::sink::{SinkStopped, Verdict, VolumeSink};
use rmt_wire::{Counted, print_text};
use std::io::Write;

#[derive(Drop)]
pub(crate) struct Outputs<'a, F, W> {
    pub(crate) file: &'a mut Counted<F>,
    /// Where the label goes, up to its first zero byte.
    pub(crate) out: &'a mut Counted<W>,
}

impl<F: Write, W: Write> VolumeSink for Outputs<'_, F, W> {
    ghost takes = { TakesPrinted F.contents W.contents };

    fn label(&mut self, record: &[u8]) -> Verdict {
        if print_text(self.out, label_text(record)) {
            Verdict::GoOn
        } else {
            Verdict::Stop
        }
    }

    fn block(&mut self, number: u64, bytes: &[u8]) -> Result<(), SinkStopped> {
        let _ = number;
        write_whole(self.file, bytes)
    }

    fn mark(&mut self) {}

    fn complete(&mut self) -> Result<(), SinkStopped> {
        Ok(())
    }
}

fn write_whole<W: Write>(out: &mut Counted<W>, bytes: &[u8]) -> Result<(), SinkStopped>
    ensures { IsPrinted W.contents bytes.now out.old out.new (has_accepted result) }
{
    if print_text(out, bytes) {
        Ok(())
    } else {
        Err(SinkStopped)
    }
}

fn label_text(label: &[u8]) -> &[u8]
    ensures { result.now ≡ spec.text_of label.now }
{
    match first_zero(label) {
        Some(at) => &label[..at],
        None => label,
    }
}

fn first_zero(bytes: &[u8]) -> Option<usize>
    ensures within { IfSome result (λ n. n ≤ length bytes.now) }
    ensures found { result ≡ position (λ b. nat_eq b 0) bytes.now }
{
    bytes.iter().position(|byte| *byte == 0)
}
