//! Laws: each holds of all packets and captures.

ghost use Rattle.ospf_views.specs.RecordFiles.CaptureLaws.{ChecksumHolds, HasOneReading, LengthsAreTold};
ghost use Rattle.ospf_views.specs.RecordFiles.Recorder.{CapturesGoOn, GoOnAndOn, LogsGoOn};

/// The checksum of each IP header holds: its words sum to all ones (RFC
/// 791, section 3.1, and RFC 1071).
pub fn checksum_holds()
    ensures { ChecksumHolds }
{}

/// The lengths in a record and in its IP header are those of the bytes that follow.
pub fn lengths_are_told()
    ensures { LengthsAreTold }
{}

/// A file is the capture of one list of packets and no other.
pub fn has_one_reading()
    ensures { HasOneReading }
{}

/// If logs go on, their capture is the old capture followed by what was sent since.
pub fn captures_go_on()
    ensures { CapturesGoOn }
{}

/// The logs of a world go on, whatever happens in it, and however often.
pub fn logs_go_on()
    ensures once { LogsGoOn }
    ensures again { GoOnAndOn }
{}
