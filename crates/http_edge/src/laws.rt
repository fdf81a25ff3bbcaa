//! Laws of what bytes begin with.
ghost use Rattle.std.specs.Prelude.{◌≡◌, ◌≤◌, ◌++◌, [], ℕ, List, length};
ghost use Rattle.httparse.specs.Grammar.{IsRequestHead, RequestHead, print_request};
ghost use Rattle.spec_http.specs.Heads.{body, fields_of, framing};
ghost use Rattle.spec_http.specs.declared.limits.TheConstants.{MAX_FIELDS, MAX_HEAD};
ghost use Rattle.spec_http.specs.Messages.{BeginsWith, Beginning, Message, message_of, refused, whole};
ghost use Rattle.spec_http.specs.Pipeline.{Ending, EndsAs, Reads};
ghost use Rattle.spec_http.specs.Responses.{IsStatus};

/// What begins with a whole message does so whatever follows.
pub fn whole_stays()
    ensures { (bytes more : List ℕ) (message : Message) (rest : List ℕ)
        → BeginsWith bytes (whole message rest) → BeginsWith (bytes ++ more) (whole message (rest ++ more)) }
{}

/// What begins with a head that is refused does so whatever follows.
pub fn refused_stays()
    ensures { (bytes more : List ℕ) (status : ℕ) → BeginsWith bytes (refused status) → BeginsWith (bytes ++ more) (refused status) }
{}

/// Bytes begin with one thing alone: one whole message with what is behind it, or a refused head, or a part of either, or nothing.
pub fn begins_once()
    ensures { (bytes : List ℕ) (one other : Beginning) → BeginsWith bytes one → BeginsWith bytes other → one ≡ other }
{}

/// The bytes of a connection of at most `most` messages hold one list of messages with one rest, and end in one way.
#[tactic(auto, using(crate::proofs::Pipelines::determined))]
pub fn messages_are_determined()
    ensures { (most : ℕ) (bytes : List ℕ) (ms ns : List Message) (left rest : List ℕ) (end other : Ending) → Reads bytes ms left → EndsAs most (length ms) ms left end
        → Reads bytes ns rest → EndsAs most (length ns) ns rest other → (ms ≡ ns) × (left ≡ rest) × (end ≡ other) }
{}

/// The status of a refused head is one that a response may have.
pub fn refusals_are_answered()
    ensures { (bytes : List ℕ) (status : ℕ) → BeginsWith bytes (refused status) → IsStatus status }
{}

/// A head that is printed without an empty line before it, and a body of the length that it asks for, are that message, whatever follows.
pub fn printed_begins()
    ensures { (head : RequestHead) (content rest : List ℕ) → IsRequestHead head → head.blank ≡ [] → length head.fields ≤ MAX_FIELDS → length (print_request head) ≤ MAX_HEAD
        → framing head.method (fields_of head) ≡ body (length content) → BeginsWith (print_request head ++ content ++ rest) (whole (message_of head content) rest) }
{}
