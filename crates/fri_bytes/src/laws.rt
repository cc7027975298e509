// The law of reading, as a call that does nothing.
ghost use Rattle.fri_bytes.specs.Laws.{ExactReaders};

/// What a reader gives is spelled at the front of the bytes, and what is spelled there is given,
/// whatever follows it. A number is read from the bytes that writing it appends.
pub fn exact_readers()
    ensures { ExactReaders }
{}
