//! A reel that does not begin with a label.
ghost use Rattle.dump_run.specs.Run.{IsDevice};

use console::plain;
use rdump_net::{ReelFront, SocketPeer, look_at_reel};
use rdump_system::ClientSystem;
use std::fmt::{self, Display, Formatter, Write};
use std::time::Duration;

/// The first reel of a drive does not have a volume.
#[derive(Clone, Copy)]
pub(crate) struct Foreign<'a> {
    to: &'a str,
    device: &'a str,
    what: &'static str,
}

impl<'a> Foreign<'a> {
    pub(crate) fn record(to: &'a str, device: &'a str) -> Self {
        let what = "it begins with a record that is no label";
        Foreign { to, device, what }
    }

    /// Looks at the first reel after a read of it gave no record, over a connection of its own.
    pub(crate) fn look<R: ClientSystem>(
        rt: &R,
        to: &'a str,
        device: &'a str,
        timeout: Option<Duration>,
    ) -> Self
        requires { IsDevice device.now }
    {
        let mut peer = SocketPeer::new(rt, to, timeout);
        let what = match look_at_reel(rt.alloc(), &mut peer, device.as_bytes()) {
            Ok(ReelFront::Empty) => "it is empty",
            Ok(ReelFront::Mark) => "it begins with a mark",
            _ => "it is empty, or begins with a mark",
        };
        Foreign { to, device, what }
    }
}

impl Display for Foreign<'_> {
    fn fmt<W: Write>(&self, f: &mut Formatter<W>) -> fmt::Result {
        let (to, device, what) = (plain(self.to), plain(self.device), self.what);
        write!(
            f,
            "{to}: the first reel of {device} is not a volume of rdump: {what}"
        )
    }
}
