//! A reader of given bytes, and a writer of expected bytes.

use std::io::{self, ErrorKind, Read, Write};

/// A reader that gives `bytes`, at most `most` per call. Then it ends, or fails if `fails` is true.
/// A read after the end fails too.
#[derive(Drop)]
pub(crate) struct Pieces<'a> {
    pub(crate) bytes: &'a [u8],
    pub(crate) most: usize,
    pub(crate) fails: bool,
}

impl Read for Pieces<'_> {
    fn read(&mut self, buf: &mut [u8]) -> io::Result<usize> {
        if self.bytes.is_empty() && self.fails {
            return Err(ErrorKind::ConnectionReset.into());
        }
        self.fails |= self.bytes.is_empty();
        let count = buf.len().min(self.bytes.len()).min(self.most);
        buf[..count].copy_from_slice(&self.bytes[..count]);
        self.bytes = &self.bytes[count..];
        Ok(count)
    }
}

/// A writer that accepts `room` bytes, at most `most` per call, and compares them with the expected
/// bytes. Then each write fails, or returns 0 if `most` is 1.
#[derive(Drop)]
pub(crate) struct Expected<'a> {
    rest: &'a [u8],
    is_other: bool,
    room: usize,
    most: usize,
}

impl<'a> Expected<'a> {
    /// Makes a writer that accepts all bytes.
    pub(crate) fn all(bytes: &'a [u8]) -> Self {
        Expected::narrow(bytes, usize::MAX, usize::MAX)
    }

    /// Makes a writer that accepts `room` bytes, at most `most` per call.
    pub(crate) fn narrow(bytes: &'a [u8], room: usize, most: usize) -> Self {
        Expected {
            rest: bytes,
            is_other: false,
            room,
            most,
        }
    }

    /// Whether exactly the expected bytes were written.
    pub(crate) fn is_met(&self) -> bool {
        self.rest.is_empty() && !self.is_other
    }
}

impl Write for Expected<'_> {
    fn write(&mut self, buf: &[u8]) -> io::Result<usize> {
        if self.room == 0 && self.most > 1 {
            return Err(ErrorKind::BrokenPipe.into());
        }
        let count = buf.len().min(self.room).min(self.most);
        self.is_other |= self.rest.get(..count) != Some(&buf[..count]);
        self.rest = self.rest.get(count..).unwrap_or(&[]);
        self.room -= count;
        Ok(count)
    }

    fn flush(&mut self) -> io::Result<()> {
        Ok(())
    }
}
