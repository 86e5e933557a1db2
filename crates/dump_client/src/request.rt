//! Appends the requests of an attempt.
ghost use Rattle.std.specs.Prelude.{◌≡◌, ◌↔◌, ℕ, ◌+◌, ◌<◌, ◌≤◌, true, List, ◌++◌, length, take, IfOk, OnErr};
ghost use Rattle.std.specs.Vec.{vec_capacity};
ghost use Rattle.rmt_wire.specs.Lent.{plain_request};
ghost use Rattle.rmt_wire.specs.Request as requests;
ghost use Rattle.rmt_wire.specs.Request.{IsTextOf, request_text};
ghost use Rattle.rmt_wire.specs.Request.PlainRequest.{Open, Op, Read, Write};
ghost use Rattle.dump_run.specs.Label.{label_bytes};
ghost use Rattle.dump_client.specs.Client.{IsPayload, IsRequestPushed, IsScarce, AppendedBy, IsBlockRead, ReadBy, failures_after, is_source_fault, label_request};
ghost use Rattle.dump_client.specs.Lawful.{IsLawful, StepFits};
ghost use Rattle.dump_client.specs.declared.step.Step.TheVariants as steps;

use crate::ledger::Ledger;
use crate::step::Step;
use crate::{AttemptFault, Blocks, Run};
use dump_run::{LABEL_BYTES, label};
use rmt_wire::fcntl::O_RDWR;
use rmt_wire::{RECORD_LIMIT, Request, push_request, push_write_line};
use std::alloc::AllocError;

/// Appends the request of a step, or nothing if it fails.
#[tactic(auto, using(crate::proofs::Requests::small_op, crate::proofs::Requests::pushed))]
pub(crate) fn push_step<B: Blocks>(
    ledger: &Ledger,
    step: Step,
    source: &mut B,
    out: &mut Vec<u8>,
) -> Result<(), AttemptFault>
    requires lawful { IsLawful ledger.now.at }
    requires fits { StepFits ledger.now.at.run ledger.now.at.counts step }
    requires payload { (payload : List (List ℕ)) → B.holds source.old payload → IsPayload ledger.now.at.run payload }
    ensures appended { AppendedBy (B.holds source.old) ledger.now.at step (vec_capacity out.old) out.old.items result out.new.items }
    ensures read { ReadBy step ledger.now.at.run.block_bytes B.reads source.old out.old.items result source.new out.new.items }
    ensures same_blocks { (payload : List (List ℕ)) → B.holds source.old payload ↔ B.holds source.new payload }
    ensures counted { B.failures source.new ≡ failures_after result (B.failures source.old) }
    ensures able { is_source_fault result ≡ true → B.can_fail source.old }
    ensures quiet { B.can_fail source.new → B.can_fail source.old }
{
    match step {
        Step::Open => push_open(ledger.run(), out),
        Step::Operation(op) => push_op(op.number(), out),
        Step::Look => push_look(out),
        Step::Label => push_label(ledger, source, out),
        Step::Block(number) => push_block(ledger, number, source, out),
        Step::Close => push(&Request::Close, out),
    }
}

fn push_open(run: &Run, out: &mut Vec<u8>) -> Result<(), AttemptFault>
    ensures { IsRequestPushed (Open run.now.device O_RDWR) (vec_capacity out.old) out.old.items result out.new.items }
{
    let request = Request::Open {
        device: run.device(),
        mode: O_RDWR,
    };
    push(&request, out)
}

fn push_look(out: &mut Vec<u8>) -> Result<(), AttemptFault>
    ensures { IsRequestPushed (Read label_bytes) (vec_capacity out.old) out.old.items result out.new.items }
{
    let count = LABEL_BYTES as u32;
    push(&Request::Read { count }, out)
}

fn push_label<B: Blocks>(
    ledger: &Ledger,
    source: &mut B,
    out: &mut Vec<u8>,
) -> Result<(), AttemptFault>
    ensures pushed { IsRequestPushed (label_request ledger.now.at) (vec_capacity out.old) out.old.items result out.new.items }
    ensures same_source { source.new ≡ source.old }
{
    let (volume, first) = ledger.checkpoint();
    let label = label(ledger.run(), volume, first);
    source.begin_volume(&label, volume, first);
    push(&Request::Write { bytes: &label }, out)
}

/// The source reads the block into its place in `out`, after the room for the write is reserved.
fn push_block<B: Blocks>(
    ledger: &Ledger,
    number: u32,
    source: &mut B,
    out: &mut Vec<u8>,
) -> Result<(), AttemptFault>
    requires lawful { IsLawful ledger.now.at }
    requires number { number < ledger.now.at.run.blocks }
    requires payload { (payload : List (List ℕ)) → B.holds source.old payload → IsPayload ledger.now.at.run payload }
    ensures appended { AppendedBy (B.holds source.old) ledger.now.at (steps.Block number) (vec_capacity out.old) out.old.items
        result out.new.items }
    ensures read { IsBlockRead number ledger.now.at.run.block_bytes B.reads source.old out.old.items result source.new out.new.items }
    ensures same_blocks { (payload : List (List ℕ)) → B.holds source.old payload ↔ B.holds source.new payload }
    ensures counted { B.failures source.new ≡ failures_after result (B.failures source.old) }
    ensures able { is_source_fault result ≡ true → B.can_fail source.old }
    ensures quiet { B.can_fail source.new → B.can_fail source.old }
{
    let len = out.len();
    let Ok(start) = push_blank(ledger.run().block_bytes(), out) else {
        return Err(AttemptFault::OutOfMemory);
    };
    match source.read(number, &mut out[start..]) {
        Ok(()) => Ok(()),
        Err(_) => {
            out.truncate(len);
            Err(AttemptFault::SourceFault)
        }
    }
}

/// Appends a write of `size` zero bytes, or nothing. Returns the index of the first zero byte.
fn push_blank(size: usize, out: &mut Vec<u8>) -> Result<usize, AllocError>
    requires { size ≤ RECORD_LIMIT }
    ensures place { IfOk result (λ start. start + size ≡ length out.new.items) }
    ensures begun { IfOk result (λ start. (bytes : List ℕ) → length bytes ≡ size →
        take start out.new.items ++ bytes ≡ out.old.items ++ request_text (Write bytes)) }
    ensures unchanged { OnErr result (out.new.items ≡ out.old.items) }
    ensures full { OnErr result ((bytes : List ℕ) → length bytes ≡ size →
        IsScarce (Write bytes) (vec_capacity out.old) (length out.old.items)) }
    ensures spelled { (bytes : List ℕ) → length bytes ≡ size → IsTextOf (request_text (Write bytes)) (Write bytes) }
{
    push_write_line(out, size)?;
    let start = out.len();
    out.resize(start + size, 0)?;
    Ok(start)
}

fn push_op(op: u32, out: &mut Vec<u8>) -> Result<(), AttemptFault>
    requires { op ≤ 7 }
    ensures { IsRequestPushed (Op op 1) (vec_capacity out.old) out.old.items result out.new.items }
{
    push(&Request::Op { op, count: 1 }, out)
}

fn push(request: &Request<'_>, out: &mut Vec<u8>) -> Result<(), AttemptFault>
    requires { requests.HasSpelling (plain_request request.now) }
    ensures { IsRequestPushed (plain_request request.now) (vec_capacity out.old) out.old.items result out.new.items }
{
    match push_request(out, request) {
        Ok(()) => Ok(()),
        Err(_) => Err(AttemptFault::OutOfMemory),
    }
}
