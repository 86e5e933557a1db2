//! Laws of the grammar. Each is the contract of a function that does nothing.

ghost use Rattle.std.specs.Prelude.{◌≡◌, ◌⊎◌, ◌↔◌, ◌≤◌, ℕ, List, [], ◌∷◌, ◌++◌, length, take, Option, Some, Result};
ghost use Rattle.rmt_wire.specs.Number.{HasNoLineFeed, line_feed};
ghost use Rattle.rmt_wire.specs.Request.{PlainRequest};
ghost use Rattle.rmt_wire.specs.Reply.{PlainReply, Wanted, AnswersTo, ReplyHasSpelling, SpellsReply, data_length, reply_text};
ghost use Rattle.rmt_wire.specs.RequestParts.{IsRequestPrefix, HasFault, Parts, ParsesAs, IsDroppedLine};
ghost use Rattle.rmt_wire.specs.RequestReader.{dropped_line};
ghost use Rattle.rmt_wire.specs.ReplyFront.{kept_of};
ghost use Rattle.rmt_wire.specs.ReplyParts.{ReplyParsesAs, ReplyIsDecided};
ghost use Rattle.rmt_wire.specs.ReplyReader.{IsErrorText, IsWithin, error_bytes};
ghost use Rattle.rmt_wire.specs.declared.fault.WireFault.{WireFault};

use crate::limits::{READER_LIMIT, RECORD_LIMIT};

/// The bytes of a stream divide in exactly one way into complete requests and a rest. The unread
/// bytes alone decide what a reader returns and which bytes stay unread.
#[tactic(auto, using(crate::proofs::Giving::one_parts, crate::proofs::Giving::some_parts, crate::proofs::Giving::one_answer))]
pub fn one_reading()
    ensures parts { (bytes rest other : List ℕ) (requests others : List PlainRequest) →
        Parts bytes requests rest → Parts bytes others other → (requests ≡ others) × (rest ≡ other) }
    ensures some_parts { (bytes : List ℕ) → (requests : List PlainRequest) × (rest : List ℕ) × Parts bytes requests rest
        × (IsRequestPrefix rest ⊎ ((fault : WireFault) × HasFault rest fault)) }
    ensures answers { (bytes rest other : List ℕ) (answer another : Result (Option PlainRequest) WireFault) →
        ParsesAs bytes answer rest → ParsesAs bytes another other → (answer ≡ another) × (rest ≡ other) }
{}

/// The data of a write are dropped if and only if the bytes begin with `W`, a number above
/// `RECORD_LIMIT` and a line feed.
pub fn dropped_writes()
    ensures { (bytes : List ℕ) (len count : ℕ) → (dropped_line bytes ≡ Some (len, count)) ↔ IsDroppedLine bytes len count }
{}

/// The bytes alone decide which reply of a wanted kind comes and where it ends.
#[tactic(auto, using(crate::proofs::ReplyGiving::one_reply))]
pub fn one_reply()
    ensures { (wanted : Wanted) (text more : List ℕ) (reply other : PlainReply) →
        SpellsReply text reply wanted → SpellsReply (text ++ more) other wanted → (more ≡ []) × (reply ≡ other) }
{}

/// The bytes that come after a reader starts to wait decide its one result.
#[tactic(auto, using(crate::proofs::ReplyGiving::one_answer, crate::proofs::ReplyGiving::some_answer_of))]
pub fn one_reply_reading()
    ensures answers { (wanted : Option Wanted) (bytes : List ℕ) → ReplyIsDecided wanted bytes }
    ensures some_answer { (wanted : Option Wanted) (bytes : List ℕ) →
        (answer : Result (Option PlainReply) WireFault) × (rest : List ℕ) × ReplyParsesAs wanted bytes answer rest }
{}

/// A reply with at most `RECORD_LIMIT` bytes of data fits into a reader's buffer. A reply has no
/// more if its client waits for no more.
#[tactic(auto, using(crate::proofs::Spelling::short_reply, crate::proofs::Spelling::short_answer))]
pub fn short_replies()
    ensures short { (reply : PlainReply) →
        ReplyHasSpelling reply → data_length reply ≤ RECORD_LIMIT → length (reply_text reply) ≤ READER_LIMIT }
    ensures answers { (reply : PlainReply) (wanted : Wanted) →
        AnswersTo reply wanted → IsWithin wanted → data_length reply ≤ RECORD_LIMIT }
{}

/// A reader that waits for a reply drops an error's text after its first 255 bytes, and keeps all
/// other bytes.
pub fn long_texts()
    ensures begun { (bytes number line : List ℕ) → IsErrorText bytes number line → HasNoLineFeed line →
        kept_of bytes ≡ error_bytes number (take 255 line) }
    ensures whole { (bytes number line rest : List ℕ) → IsErrorText bytes number (line ++ line_feed ∷ rest) → HasNoLineFeed line →
        kept_of bytes ≡ error_bytes number (take 255 line ++ line_feed ∷ rest) }
    ensures others { (bytes : List ℕ) → ((number text : List ℕ) → IsErrorText bytes number text → ⊥) →
        kept_of bytes ≡ bytes }
{}
