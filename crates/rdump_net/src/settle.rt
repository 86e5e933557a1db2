//! What follows a dump's conclusion.
ghost use Rattle.std.specs.Prelude.{◌≡◌, ◌&&◌};
ghost use Rattle.rdump_net.specs.Ending.{IsSettled, entered_status};
ghost use Rattle.rdump_net.specs.declared.conclusion.Conclusion.TheVariants as ends;

use crate::{Conclusion, DumpObserver, Peer};
use console::ExitStatus;
use dump_client::{Blocks, Client};
use rmt_wire::{Counted, print_text};
use std::io::Write;

pub(crate) fn settle<B: Blocks, P: Peer, W: Write, O: DumpObserver<B, P>>(
    conclusion: Conclusion,
    client: &Client<B>,
    observer: &mut O,
    out: &mut Counted<W>,
) -> ExitStatus
    ensures { IsSettled W.contents O.logs client.now.at.run conclusion out.old observer.old out.new observer.new result }
{
    match conclusion {
        Conclusion::Complete => enter(client, observer, out),
        Conclusion::Abandoned => {
            observer.forget();
            ExitStatus::Abnormal
        }
        _ => ExitStatus::Abnormal,
    }
}

/// Enters a complete dump. The checkpoint is needed until the dump is in dumpdates.
fn enter<B: Blocks, P: Peer, W: Write, O: DumpObserver<B, P>>(
    client: &Client<B>,
    observer: &mut O,
    out: &mut Counted<W>,
) -> ExitStatus
    ensures { IsSettled W.contents O.logs client.now.at.run ends.Complete out.old observer.old out.new observer.new result }
{
    let has_all = observer.complete(client);
    if !observer.enter(client) {
        print_text(out, b"dumpdates not updated\n");
        return ExitStatus::Abnormal;
    }
    let is_forgotten = observer.forget();
    status_of(has_all, is_forgotten)
}

fn status_of(has_all: bool, is_forgotten: bool) -> ExitStatus
    ensures { result ≡ entered_status (has_all && is_forgotten) }
{
    if has_all && is_forgotten {
        ExitStatus::Success
    } else {
        ExitStatus::Abnormal
    }
}
