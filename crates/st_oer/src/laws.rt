//! Laws of the definitions. Each is the contract of a function that does nothing.

ghost use Rattle.std.specs.Prelude.{ℕ, ◌<◌, ◌^◌};
ghost use Rattle.st_oer.specs.Spelling.{length_bytes, octets, uint64, uint8, var_uint};
ghost use Rattle.st_oer.specs.Limit.{IsLimit};
ghost use Rattle.st_oer.specs.Laws.{AreFewest, ByteReads, FixedReads, HasLength, IsByte, IsSpelled, IsU64, LengthReads, LimitReads, NoneBeginsAnother, OctetsRead, ReadsWithoutMemory, U64Reads, VarUintReads};

/// Each kind of field is read exactly if the bytes begin with its encoding, whatever bytes follow.
pub fn fields_are_read_as_spelled()
    ensures byte { ByteReads }
    ensures u64 { U64Reads }
    ensures fixed { FixedReads }
    ensures length { LengthReads }
    ensures octets { OctetsRead }
    ensures var_uint { VarUintReads }
    ensures limit { LimitReads }
{}

/// No encoding of a field is a proper prefix of another encoding of the same kind.
pub fn no_spelling_begins_another()
    ensures byte { NoneBeginsAnother (IsSpelled uint8 IsByte) }
    ensures u64 { NoneBeginsAnother (IsSpelled uint64 IsU64) }
    ensures length { NoneBeginsAnother (IsSpelled length_bytes IsU64) }
    ensures octets { NoneBeginsAnother (IsSpelled octets HasLength) }
    ensures var_uint { NoneBeginsAnother (IsSpelled var_uint IsU64) }
    ensures limit { NoneBeginsAnother IsLimit }
{}

/// A number is written in the fewest bytes that give it.
pub fn digits_are_fewest()
    ensures { (n : ℕ) → n < 2 ^ 64 → AreFewest n }
{}

/// Reading a field never fails with `NoMemory`.
pub fn reading_wants_no_memory()
    ensures { ReadsWithoutMemory }
{}
