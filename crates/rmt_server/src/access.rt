//! The access of an open device: read, write, or both.

ghost use Rattle.std.specs.Prelude.{◌≡◌};
ghost use Rattle.rmt_server.specs.Access.{access_of, reads, writes};

use rmt_wire::fcntl::{ACCESS_MODES, O_RDONLY, O_RDWR, O_WRONLY};

#[derive(Clone, Copy)]
pub(crate) enum Access {
    Read,
    Write,
    Both,
}

impl Access {
    /// The access for the mode of an open. Only the mode modulo 4 counts: 3 gives `None`.
    pub(crate) fn of(mode: u32) -> Option<Access>
        ensures { result ≡ access_of mode }
    {
        match mode % ACCESS_MODES {
            O_RDONLY => Some(Access::Read),
            O_WRONLY => Some(Access::Write),
            O_RDWR => Some(Access::Both),
            _ => None,
        }
    }

    pub(crate) fn reads(self) -> bool
        ensures { result ≡ reads self }
    {
        match self {
            Access::Read | Access::Both => true,
            Access::Write => false,
        }
    }

    pub(crate) fn writes(self) -> bool
        ensures { result ≡ writes self }
    {
        match self {
            Access::Write | Access::Both => true,
            Access::Read => false,
        }
    }
}
