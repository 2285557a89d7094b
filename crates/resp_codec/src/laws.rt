//! What holds of every stream of requests: laws over the definitions, by functions that do nothing.

ghost use Rattle.std.specs.Prelude.{◌≡◌, ◌+◌, ◌++◌, ◌∷◌, ℕ, List, [], length, true, false};
ghost use Rattle.std.specs.List.{list_any};
ghost use Rattle.core_types.specs.declared.bad_request.BadRequest.{BadRequest};
ghost use Rattle.resp_codec.specs.Spelling.{multibulk, IsRequest};
ghost use Rattle.resp_codec.specs.Faults.{BadAt};
ghost use Rattle.resp_codec.specs.Stream.{Stream, Takes, Waits, Refuses, SkipsOnly};
ghost use Rattle.resp_codec.specs.Requests.{Span, IsSpan, IsReadAs, End, Requests, behind, quits, Served};

/// A byte list has one whole reading.
pub fn one_reading()
    ensures some { (bytes : List ℕ) → (requests : List (List (List ℕ))) × (end : End)
        × Requests bytes requests end }
    ensures one { (bytes : List ℕ) (requests others : List (List (List ℕ))) (end other : End)
        → Requests bytes requests end → Requests bytes others other → (requests ≡ others)
        × (end ≡ other) }
{}

/// No spelling begins another or is begun by what is skipped; a bad place is the only one, and
/// stands in nothing that is whole.
pub fn one_spelling()
    ensures span { (a b : Span) (x y : List ℕ) → IsSpan a → IsSpan b → a.bytes ++ x ≡ b.bytes ++ y
        → a ≡ b }
    ensures bad { (bytes : List ℕ) (kind other : BadRequest) (at place : ℕ) → BadAt bytes kind at
        → BadAt bytes other place → (kind ≡ other) × (at ≡ place) }
    ensures apart { (span : Span) (more : List ℕ) (kind : BadRequest) (at : ℕ) → IsSpan span
        → ¬ BadAt (span.bytes ++ more) kind at }
{}

/// More bytes only go on with a reading: what follows is read from the first byte that was left,
/// and a bad place stays the end. What `write_request` writes is read back, whatever follows.
pub fn reading_goes_on()
    ensures rest { (front left more : List ℕ) (requests later : List (List (List ℕ))) (end : End)
        → Requests (front ++ left) requests (End.Rest (length left))
        → Requests (left ++ more) later end
        → Requests (front ++ (left ++ more)) (requests ++ later) (behind (length front) end) }
    ensures left { (bytes more : List ℕ) (requests later : List (List (List ℕ))) (stream : Stream)
        (end : End)
        → IsReadAs bytes requests stream → Requests (stream.rest ++ more) later end
        → Requests (bytes ++ more) (requests ++ later) (behind stream.passed end) }
    ensures bad { (bytes more : List ℕ) (requests : List (List (List ℕ))) (kind : BadRequest)
        (offset : ℕ)
        → Requests bytes requests (End.Bad kind offset)
        → Requests (bytes ++ more) requests (End.Bad kind offset) }
    ensures written { (words : List (List ℕ)) (more : List ℕ) (later : List (List (List ℕ)))
        (end : End)
        → IsRequest words → Requests more later end
        → Requests (multibulk words ++ more) (words ∷ later)
        (behind (length (multibulk words)) end) }
{}

/// What a reader answers is the whole reading of the bytes that it was fed, in whatever pieces they
/// came: a loop over `feed` and `next` keeps `IsReadAs` by the clauses of these calls, and has the
/// reading at the end.
pub fn any_pieces()
    ensures new { (stream : Stream) → stream.passed ≡ 0 → stream.rest ≡ [] → IsReadAs [] [] stream }
    ensures feed { (bytes more : List ℕ) (requests : List (List (List ℕ))) (old new : Stream)
        → IsReadAs bytes requests old
        → new.passed ≡ old.passed → new.rest ≡ old.rest ++ more
        → IsReadAs (bytes ++ more) requests new }
    ensures request { (bytes : List ℕ) (requests : List (List (List ℕ))) (old new : Stream)
        (words : List (List ℕ))
        → IsReadAs bytes requests old → Takes old new words
        → IsReadAs bytes (requests ++ words ∷ []) new }
    ensures skip { (bytes : List ℕ) (requests : List (List (List ℕ))) (old new : Stream)
        → IsReadAs bytes requests old → SkipsOnly old new → IsReadAs bytes requests new }
    ensures more { (bytes : List ℕ) (requests : List (List (List ℕ))) (old new : Stream)
        → IsReadAs bytes requests old → Waits old new
        → IsReadAs bytes requests new × Requests bytes requests (End.Rest (length new.rest)) }
    ensures bad { (bytes : List ℕ) (requests : List (List (List ℕ))) (old new : Stream)
        (kind : BadRequest) (offset : ℕ)
        → IsReadAs bytes requests old → Refuses old new kind offset
        → IsReadAs bytes requests new × Requests bytes requests (End.Bad kind offset) }
{}

/// A byte list has one list of requests that are served. What follows a QUIT is not looked at,
/// without a QUIT all are served, and what was read before the end is the front of it.
pub fn one_serving()
    ensures some { (bytes : List ℕ) → (served : List (List (List ℕ))) × Served bytes served }
    ensures one { (bytes : List ℕ) (served other : List (List (List ℕ))) → Served bytes served
        → Served bytes other
        → served ≡ other }
    ensures quit { (bytes more : List ℕ) (front : List (List (List ℕ))) (last : List (List ℕ))
        (stream : Stream)
        → IsReadAs bytes (front ++ last ∷ []) stream → list_any quits front ≡ false
        → quits last ≡ true
        → Served (bytes ++ more) (front ++ last ∷ []) }
    ensures all { (bytes : List ℕ) (requests : List (List (List ℕ))) (end : End)
        → Requests bytes requests end
        → list_any quits requests ≡ false → Served bytes requests }
    ensures front { (bytes more : List ℕ) (requests served : List (List (List ℕ))) (stream : Stream)
        → IsReadAs bytes requests stream → list_any quits requests ≡ false
        → Served (bytes ++ more) served
        → (later : List (List (List ℕ))) × (served ≡ requests ++ later) }
{}

/// Where a bad place stands at the front, a reader says so again and again, and nothing else.
pub fn bad_for_good()
    ensures again { (old new : Stream) (kind other : BadRequest) (at offset : ℕ)
        → BadAt old.rest kind at
        → Refuses old new other offset → (other ≡ kind) × (offset ≡ old.passed + at) }
    ensures no_request { (old new : Stream) (kind : BadRequest) (at : ℕ) (words : List (List ℕ))
        → BadAt old.rest kind at → ¬ Takes old new words }
    ensures no_wait { (old new : Stream) (kind : BadRequest) (at : ℕ) → BadAt old.rest kind at
        → ¬ Waits old new }
{}
