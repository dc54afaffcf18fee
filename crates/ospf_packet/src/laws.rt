//! Laws: each holds of all bytes or values.

ghost use Rattle.ospf_packet.specs.Laws.{ReadsSpelledPackets, ReadsWhatWasWritten, AgeChangesNoVerdict};

/// Bytes are read as a packet exactly where they spell it.
pub fn reads_what_is_spelled()
    ensures { ReadsSpelledPackets }
{}

/// What was written is read again.
pub fn reads_what_was_written()
    ensures { ReadsWhatWasWritten }
{}

/// Whether bytes are an LSA, and which fault is their first, does not depend on the age in them.
pub fn age_changes_no_verdict()
    ensures { AgeChangesNoVerdict }
{}
