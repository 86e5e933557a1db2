//! The errors that the server replies with: numbers and texts of errno.

ghost use Rattle.std.specs.Prelude.{◌≡◌};
ghost use Rattle.rmt_wire.specs.Lent.{plain_reply};
ghost use Rattle.rmt_server.specs.Refusals.{number_of, text_of, refused, tape_refusal, drive_refusal};

use drives::DriveFault;
use rmt_wire::Reply;
use rmt_wire::errno::{EACCES, EBADF, EBUSY, EINVAL, EIO, ENOENT, ENOMEM, ENOSPC, ENXIO};
use tape::TapeFault;

/// Why a request is refused, named as in errno.
#[derive(Clone, Copy)]
pub(crate) enum Refusal {
    NoSuchFile,
    InputOutput,
    NotConfigured,
    BadDescriptor,
    NoMemory,
    Permission,
    Busy,
    Invalid,
    NoSpace,
}

impl Refusal {
    fn number(self) -> u32
        ensures { result ≡ number_of self }
    {
        match self {
            Refusal::NoSuchFile => ENOENT,
            Refusal::InputOutput => EIO,
            Refusal::NotConfigured => ENXIO,
            Refusal::BadDescriptor => EBADF,
            Refusal::NoMemory => ENOMEM,
            Refusal::Permission => EACCES,
            Refusal::Busy => EBUSY,
            Refusal::Invalid => EINVAL,
            Refusal::NoSpace => ENOSPC,
        }
    }

    fn text(self) -> &'static [u8]
        ensures { result.now ≡ text_of self }
    {
        match self {
            Refusal::NoSuchFile => b"No such file or directory",
            Refusal::InputOutput => b"Input/output error",
            Refusal::NotConfigured => b"Device not configured",
            Refusal::BadDescriptor => b"Bad file descriptor",
            Refusal::NoMemory => b"Cannot allocate memory",
            Refusal::Permission => b"Permission denied",
            Refusal::Busy => b"Device busy",
            Refusal::Invalid => b"Invalid argument",
            Refusal::NoSpace => b"No space left on device",
        }
    }

    pub(crate) fn reply(self) -> Reply<'static>
        ensures { plain_reply result ≡ refused self }
    {
        Reply::Error {
            number: self.number(),
            text: self.text(),
        }
    }

    pub(crate) fn of_tape(fault: TapeFault) -> Refusal
        ensures { result ≡ tape_refusal fault }
    {
        match fault {
            TapeFault::Device | TapeFault::EndOrMark => Refusal::InputOutput,
            TapeFault::Full => Refusal::NoSpace,
            TapeFault::BadOperation => Refusal::Invalid,
            TapeFault::OutOfMemory => Refusal::NoMemory,
        }
    }

    pub(crate) fn of_drive(fault: DriveFault) -> Refusal
        ensures { result ≡ drive_refusal fault }
    {
        match fault {
            DriveFault::NoSuchDrive => Refusal::NoSuchFile,
            DriveFault::Busy(_) => Refusal::Busy,
            DriveFault::NoReel => Refusal::NotConfigured,
            DriveFault::Device | DriveFault::NameTaken => Refusal::InputOutput,
            DriveFault::OutOfMemory => Refusal::NoMemory,
        }
    }
}
