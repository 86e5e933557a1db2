//! A medium that fails at a chosen call.

ghost use Rattle.std.specs.Prelude.{◌≡◌, ◌⊎◌, ◌++◌, ◌<◌, if◌then◌else◌, IsErr, OnOk, Some, length, take};
ghost use Rattle.std.specs.Result.{is_err};
ghost use Rattle.tape.specs.Failures.{raised};
ghost use Rattle.tape.specs.Fuse.{CanStop, CountsDown, IsCutWithin, IsDue, IsLeft, IsNotDue, counted_down, fuse_kind, is_due};
ghost use Rattle.tape.specs.Medium.{IsMediumCall, medium_kind};
ghost use Rattle.tape.specs.Medium.MediumCall.{Len, ReadAt, Append, Cut};

use crate::{Medium, MediumFailed};
use std::marker::Model;

/// A medium around another one that fails at a chosen call, to show what a stop there leaves.
///
/// Each `len`, `read_at`, `append`, `append_framed` and `cut` is one call. A call that is due to
/// fail acts as follows, and fails:
///
/// - `append` and `append_framed` add the first `left` of the bytes that they would add.
/// - `cut` cuts if `left` is above 0.
/// - `len` and `read_at` make no call of the inner medium, and leave the buffer unchanged.
///
/// Each other call is passed to the inner medium, and fails if that fails. Each failure is counted
/// once.
#[derive(Drop)]
pub struct FuseMedium<M: Medium> {
    inner: M,
    to_go: Option<u64>,
    left: usize,
    once: bool,
    failures: u64,
}

impl<M: Medium> Model for FuseMedium<M> {
    ghost use Rattle.tape.specs.Fuse.{Fused, fused_code};

    ghost Value = { Fused M };

    ghost coded = { fused_code M.code };

    ghost view = { λ f. record { inner = f.inner; to_go = f.to_go; left = f.left; once = f.once; failures = f.failures } };
}

impl<M: Medium> FuseMedium<M> {
    /// Wraps `inner` in a medium whose call number `at`, counted from 0, is due to fail. If not
    /// `once`, each later call is too. `left` is described above.
    pub fn new(inner: M, at: u64, left: usize, once: bool) -> FuseMedium<M>
        ensures { result ≡ record { inner = inner; to_go = Some at; left = left; once = once; failures = 0 } }
    {
        FuseMedium {
            inner,
            to_go: Some(at),
            left,
            once,
            failures: 0,
        }
    }

    /// Returns the inner medium. Makes no call of it.
    pub fn into_inner(self) -> M
        ensures { result ≡ self.inner }
    {
        let FuseMedium { inner, .. } = self;
        inner
    }

    /// Counts a call and returns whether it is due to fail. If so, counts the failure too.
    fn count_call(&mut self) -> bool
        ensures answer { result ≡ is_due self.old.to_go }
        ensures new { self.new ≡ record self.old {
          to_go = counted_down self.old.once self.old.to_go;
          failures = if is_due self.old.to_go then raised self.old.failures else self.old.failures;
        } }
    {
        let is_due = matches!(self.to_go, Some(0));
        self.to_go = count_down(self.to_go, self.once);
        if is_due {
            self.fail();
        }
        is_due
    }

    /// Returns the inner medium's result, and counts a failure.
    fn pass<T>(&mut self, answer: Result<T, MediumFailed>) -> Result<T, MediumFailed>
        ensures same { result ≡ answer }
        ensures new { self.new ≡ record self.old { failures = if is_err answer then raised self.old.failures else self.old.failures } }
    {
        if answer.is_err() {
            self.fail();
        }
        answer
    }

    fn fail(&mut self)
        ensures { self.new ≡ record self.old { failures = raised self.old.failures } }
    {
        self.failures = self.failures.saturating_add(1);
    }
}

impl<M: Medium> Medium for FuseMedium<M> {
    // `unfailed`: no call can hide a failure of the inner medium by trying again.

    ghost holds = { λ f bytes. M.holds f.inner bytes };

    ghost failures = { λ f. f.failures };

    ghost can_fail = { λ f. M.can_fail f.inner ⊎ CanStop f.to_go };

    ghost spare = { λ f. M.spare f.inner };

    fn len(&mut self) -> Result<u64, MediumFailed>
        ensures call { IsMediumCall (fuse_kind M.holds M.can_fail M.spare) self.old (Len result) self.new }
        ensures stopped { IsDue self.old.to_go → IsErr result }
        ensures passed { IsNotDue self.old.to_go → IsErr result → M.can_fail self.old.inner }
        ensures counted { CountsDown self.old self.new }
        ensures kept { IsDue self.old.to_go → self.new.inner ≡ self.old.inner }
        ensures failures { self.new.failures ≡ (if is_err result then raised self.old.failures else self.old.failures) }
        ensures unfailed { IsNotDue self.old.to_go → OnOk result (M.failures self.new.inner ≡ M.failures self.old.inner) }
    {
        if self.count_call() {
            // The medium within is not asked.
            return Err(MediumFailed);
        }
        let found = self.inner.len();
        self.pass(found)
    }

    fn read_at(&mut self, at: u64, into: &mut [u8]) -> Result<usize, MediumFailed>
        ensures call { IsMediumCall (fuse_kind M.holds M.can_fail M.spare) self.old (ReadAt at into.new result) self.new }
        ensures same { length into.new ≡ length into.old }
        ensures stopped { IsDue self.old.to_go → IsErr result }
        ensures passed { IsNotDue self.old.to_go → IsErr result → M.can_fail self.old.inner }
        ensures counted { CountsDown self.old self.new }
        ensures kept { IsDue self.old.to_go → self.new.inner ≡ self.old.inner }
        ensures buffer { IsDue self.old.to_go → into.new ≡ into.old }
        ensures failures { self.new.failures ≡ (if is_err result then raised self.old.failures else self.old.failures) }
        ensures unfailed { IsNotDue self.old.to_go → OnOk result (M.failures self.new.inner ≡ M.failures self.old.inner) }
    {
        if self.count_call() {
            // Nothing is read into the buffer.
            return Err(MediumFailed);
        }
        let found = self.inner.read_at(at, into);
        self.pass(found)
    }

    fn append(&mut self, bytes: &[u8]) -> Result<(), MediumFailed>
        ensures call { IsMediumCall (fuse_kind M.holds M.can_fail M.spare) self.old (Append bytes.now result) self.new }
        ensures stopped { IsDue self.old.to_go → IsErr result }
        ensures left { IsDue self.old.to_go →
            IsLeft (medium_kind M.holds M.failures M.can_fail M.spare) self.old.inner (take self.old.left bytes.now) self.new.inner }
        ensures passed { IsNotDue self.old.to_go → IsErr result →
            M.can_fail self.old.inner ⊎ (M.spare self.old.inner < length bytes.now) }
        ensures counted { CountsDown self.old self.new }
        ensures failures { self.new.failures ≡ (if is_err result then raised self.old.failures else self.old.failures) }
        ensures unfailed { IsNotDue self.old.to_go → OnOk result (M.failures self.new.inner ≡ M.failures self.old.inner) }
    {
        if self.count_call() {
            leave(&mut self.inner, self.left, bytes);
            return Err(MediumFailed);
        }
        let added = self.inner.append(bytes);
        self.pass(added)
    }

    fn append_framed(&mut self, frame: &[u8], bytes: &[u8]) -> Result<(), MediumFailed>
        ensures call { IsMediumCall (fuse_kind M.holds M.can_fail M.spare) self.old
            (Append (frame.now ++ (bytes.now ++ frame.now)) result) self.new }
        ensures stopped { IsDue self.old.to_go → IsErr result }
        ensures left { IsDue self.old.to_go →
            IsLeft (medium_kind M.holds M.failures M.can_fail M.spare) self.old.inner
            (take self.old.left (frame.now ++ (bytes.now ++ frame.now))) self.new.inner }
        ensures passed { IsNotDue self.old.to_go → IsErr result →
            M.can_fail self.old.inner ⊎ (M.spare self.old.inner < length (frame.now ++ (bytes.now ++ frame.now))) }
        ensures counted { CountsDown self.old self.new }
        ensures failures { self.new.failures ≡ (if is_err result then raised self.old.failures else self.old.failures) }
        ensures unfailed { IsNotDue self.old.to_go → OnOk result (M.failures self.new.inner ≡ M.failures self.old.inner) }
    {
        if self.count_call() {
            leave_framed(&mut self.inner, self.left, frame, bytes);
            return Err(MediumFailed);
        }
        let added = self.inner.append_framed(frame, bytes);
        self.pass(added)
    }

    fn cut(&mut self, len: u64) -> Result<(), MediumFailed>
        ensures call { IsMediumCall (fuse_kind M.holds M.can_fail M.spare) self.old (Cut len result) self.new }
        ensures stopped { IsDue self.old.to_go → IsErr result }
        ensures kept { IsDue self.old.to_go → self.old.left ≡ 0 → self.new.inner ≡ self.old.inner }
        ensures made { IsDue self.old.to_go → 0 < self.old.left →
            IsCutWithin (medium_kind M.holds M.failures M.can_fail M.spare) self.old.inner len self.new.inner }
        ensures passed { IsNotDue self.old.to_go → IsErr result → M.can_fail self.old.inner }
        ensures counted { CountsDown self.old self.new }
        ensures failures { self.new.failures ≡ (if is_err result then raised self.old.failures else self.old.failures) }
        ensures unfailed { IsNotDue self.old.to_go → OnOk result (M.failures self.new.inner ≡ M.failures self.old.inner) }
    {
        if self.count_call() {
            if self.left > 0 {
                let _ = self.inner.cut(len);
            }
            return Err(MediumFailed);
        }
        let cut = self.inner.cut(len);
        self.pass(cut)
    }

    fn failures(&self) -> u64 {
        self.failures
    }

    ghost single = { λ f x y told also. M.single f.inner x y told also };

    ghost bounded = { λ f x told. M.bounded f.inner x told };
}

fn count_down(to_go: Option<u64>, once: bool) -> Option<u64>
    ensures { result ≡ counted_down once to_go }
{
    match to_go {
        None => None,
        Some(0) => { if once { None } else { Some(0) } }
        Some(n) => Some(n - 1),
    }
}

/// Appends the first `left` of these bytes. Ignores a failure.
fn leave<M: Medium>(medium: &mut M, left: usize, bytes: &[u8])
    ensures { IsLeft (medium_kind M.holds M.failures M.can_fail M.spare) medium.old (take left bytes.now) medium.new }
{
    let count = bytes.len().min(left);
    let _ = medium.append(&bytes[..count]);
}

/// Like `leave`, for frame, bytes and frame. Stops at a failure.
fn leave_framed<M: Medium>(medium: &mut M, left: usize, frame: &[u8], bytes: &[u8])
    ensures { IsLeft (medium_kind M.holds M.failures M.can_fail M.spare) medium.old
        (take left (frame.now ++ (bytes.now ++ frame.now))) medium.new }
{
    let first = frame.len().min(left);
    if medium.append(&frame[..first]).is_err() {
        return;
    }
    let middle = bytes.len().min(left - first);
    if medium.append(&bytes[..middle]).is_err() {
        return;
    }
    let last = frame.len().min(left - first - middle);
    let _ = medium.append(&frame[..last]);
}
