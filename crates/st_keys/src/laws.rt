//! Laws of the definitions, for crates that build on them. Each is the contract of a function that does nothing.

ghost use Rattle.st_keys.specs.Laws.{SealedOpens, HashesHave32, PayloadLengths, OpensWithoutMemory};

/// A sealed packet opens to itself.
pub fn sealed_opens()
    ensures { SealedOpens }
{}

/// A fulfillment and a condition have 32 bytes each.
pub fn hashes_have_32_bytes()
    ensures { HashesHave32 }
{}

/// A payload is 28 bytes longer than its plain text. A packet's payload has at most 32,767 bytes.
pub fn payload_lengths()
    ensures { PayloadLengths }
{}

/// Opening a payload never fails with `NoMemory`: it does not allocate.
pub fn opens_without_memory()
    ensures { OpensWithoutMemory }
{}
