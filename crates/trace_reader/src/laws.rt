//! Laws about what a trace is. Each stands as the contract of a function that does nothing.
ghost use Rattle.std.specs.Prelude.{◌≡◌, ℕ, List};
ghost use Rattle.gl_records.specs.declared.rec.Rec.{Rec};
ghost use Rattle.gl_records.specs.declared.size.Size.{Size};
ghost use Rattle.trace_reader.specs.Outcome.{IsOutcome};
ghost use Rattle.trace_reader.specs.Spelling.{Fits, IsBytes, spell};
ghost use Rattle.trace_reader.specs.Trace.{Ended, Outcome, Readable, trace_of};

/// Every list of bytes has an outcome, and no other.
pub fn one_outcome()
    ensures some { (bytes : List ℕ) → IsOutcome bytes (trace_of bytes) }
    ensures only { (bytes : List ℕ) (outcome : Outcome) → IsOutcome bytes outcome → trace_of bytes ≡ outcome }
{}

/// What is spelled as a size and records is bytes, and reads back as exactly these: where the sides are those of
/// a surface, no record is End, each is spelled so that it reads back, as `spell` ensures, and neither a payload
/// nor the whole is too long.
pub fn spelling_reads_back()
    ensures bytes { (size : Size) (records : List Rec) → Fits size records → IsBytes (spell size records) }
    ensures back { (size : Size) (records : List Rec) → Fits size records
        → trace_of (spell size records) ≡ Readable size (record { records = records; ending = Ended }) }
{}
