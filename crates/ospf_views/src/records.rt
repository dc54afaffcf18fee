//! What routers leave in files: a capture of what they sent, a drawing of what one of them lists,
//! and a journal.
//!
//! `capture` makes a file that Wireshark and tcpdump open: libpcap's classic format, each packet as
//! an IP packet of protocol 89 (RFC 791 and RFC 2328, appendix A.1). `write_header` begins one,
//! `write_datagram` adds a packet, and a `Recorder` adds what a network has sent since its last
//! call. `drawing` prints what a router lists in the language of Graphviz's `dot`
//! (`ospf_inspect::drawing`). `write_records` writes the files that are wanted.
//! `specs/RecordFiles/Captures` defines what is captured, and when; `specs/RecordFiles/Pcap` and
//! `specs/RecordFiles/Ip` define how. A `Journal` writes the lines of `ospf_journal` to a file
//! (`specs/RecordFiles/Journals`).

mod capture_laws;
mod captures;
mod counts;
mod drawings;
mod fault;
mod files;
mod journal;
mod moment;
mod recorder;
mod stamps;
mod write;

pub use crate::records::capture_laws::{
    captures_go_on, checksum_holds, has_one_reading, lengths_are_told, logs_go_on,
};
pub use crate::records::captures::capture;
pub use crate::records::drawings::drawing;
pub use crate::records::fault::CaptureFault;
pub use crate::records::files::write_records;
pub use crate::records::journal::Journal;
pub use crate::records::moment::Moment;
pub use crate::records::recorder::Recorder;
pub use crate::records::write::{write_datagram, write_header};
pub use ospf_inspect::drawing::Graph;
