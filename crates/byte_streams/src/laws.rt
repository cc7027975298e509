// The laws of streams, as calls that do nothing.
ghost use Rattle.byte_streams.specs.CoveredBytes.{CoveredWasWritten, ReadIsCovered};
ghost use Rattle.byte_streams.specs.Laws.{TruncatedChunksCount, PlainFronts, ReadMatchesTraffic, ShortIsPlain, StrangeBySend, NoSendIsAbsent};

/// Where no send of a process is at this clock, none is kept there.
pub fn unsent_is_free()
    ensures { NoSendIsAbsent }
{}

/// What is read of a stream that is kept is what was read of it by the sends and receives, and that is a front of what was
/// written.
pub fn read_is_kept()
    ensures { ReadMatchesTraffic }
{}

/// At each covered position stands a byte that a receive took which counts, and that a send brought before it which counts. Each
/// position of what is read is covered.
pub fn covered_was_written()
    ensures written { CoveredWasWritten }
    ensures read { ReadIsCovered }
{}

/// A front of what a send that counts brought to its receiver counts where it is a chunk, and else it is plain. So is one of
/// what is no chunk. So no front of what a send brought to its receiver is strange unless the send is.
pub fn fronts_count()
    ensures counted { TruncatedChunksCount }
    ensures short { ShortIsPlain }
    ensures plain { PlainFronts }
    ensures strange { StrangeBySend }
{}
