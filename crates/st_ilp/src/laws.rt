//! Laws of the definitions: bytes are read as a packet exactly if they are its encoding.

ghost use Rattle.st_ilp.specs.Laws.{ExpiryReads, PrepareReads, AnswerReads, NoneBeginsAnother, RejectsHaveSize, TextsHaveSize, KindsApart, ReadsWithoutMemory};

/// Each expiry of the years 0000 to 9999 has exactly one text, and each text exactly one value.
pub fn expiry_law()
    ensures { ExpiryReads }
{}

/// Bytes are read as a Prepare exactly if they are its encoding.
pub fn prepare_law()
    ensures { PrepareReads }
{}

/// Bytes are read as a Fulfill or a Reject exactly if they are its encoding.
pub fn answer_law()
    ensures { AnswerReads }
{}

/// No packet's encoding is a proper prefix of another packet's encoding.
pub fn none_begins_another()
    ensures { NoneBeginsAnother }
{}

/// A Reject without a message has the length that `reject_len` gives.
pub fn reject_size_law()
    ensures { RejectsHaveSize }
{}

/// The length in bytes of each kind of packet.
pub fn size_law()
    ensures { TextsHaveSize }
{}

/// A packet's encoding is not read as a packet of another kind: a Reject is never read as a Fulfill.
pub fn kind_law()
    ensures { KindsApart }
{}

/// Reading a packet or an expiry never fails with `NoMemory`.
pub fn reading_wants_no_memory()
    ensures { ReadsWithoutMemory }
{}
