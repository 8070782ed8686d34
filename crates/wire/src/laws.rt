//! The law that nothing that is written has two readings.
ghost use Rattle.std.specs.Prelude.{◌≡◌, ℕ, List};
ghost use Rattle.wire.specs.Records.{IsOrder, FitsRecord, answer_record, record_bytes};
ghost use Rattle.wire.specs.declared.answer.Answer as answers;
ghost use Rattle.wire.specs.declared.header.Header as headers;
ghost use Rattle.wire.specs.declared.order.Order as orders;

/// Proves that bytes are at most one record, that a record with the bytes after it is at most one order, with one
/// list of words, and that two answers have different records.
pub fn records_have_one_reading()
    ensures records { (h k : headers.Header) → FitsRecord h → FitsRecord k → record_bytes h ≡ record_bytes k → h ≡ k }
    ensures orders { (h : headers.Header) (body : List ℕ) (a b : orders.Order) (words others : List ℕ)
        → IsOrder h body a words → IsOrder h body b others → (a ≡ b) × (words ≡ others) }
    ensures answers { (a b : answers.Answer) (n m : ℕ) → answer_record a n ≡ answer_record b m → (a ≡ b) × (n ≡ m) }
{}
