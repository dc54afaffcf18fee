//! Laws: each holds of all routers.

ghost use Rattle.ospf_area.specs.Updates.AckLaws.{AcknowledgementsAreOrdered, AcknowledgementsArePacked};
ghost use Rattle.ospf_area.specs.Updates.Laws.{AreaStaysShort, CopiesReach, CopiesStay, NumbersAreKept, StoredNeighbours, StoredEntry, StoredNumbers, StoredStays, StoredReaches, RemovedEntries, UpdatesBringShort};

/// What storing an LSA does to each neighbour.
pub fn stored_neighbours()
    ensures { StoredNeighbours }
{}

/// What it does to the database.
pub fn stored_entry()
    ensures { StoredEntry }
{}

/// What it does to the recorded numbers.
pub fn stored_numbers()
    ensures { StoredNumbers }
{}

/// What waits for an acknowledgement while an LSA is stored.
pub fn stored_stays()
    ensures { StoredStays }
{}

/// Which neighbours a stored LSA reaches.
pub fn stored_reaches()
    ensures { StoredReaches }
{}

/// What leaves the database at the end of a step.
pub fn removed_entries()
    ensures { RemovedEntries }
{}

/// What waits for an acknowledgement while a copy is flushed, and while ages rise.
pub fn copies_stay()
    ensures { CopiesStay }
{}

/// Which neighbours a copy reaches that is flushed, or that reaches `MAX_AGE`.
pub fn copies_reach()
    ensures { CopiesReach }
{}

/// What each call does to the recorded numbers.
pub fn numbers_are_kept()
    ensures { NumbersAreKept }
{}

/// The LSAs of an Update are at most `ospf_base::LARGEST_LSA` bytes long.
pub fn updates_bring_short()
    ensures { UpdatesBringShort }
{}

/// Each call leaves each LSA of the database at most so long, if what is stored is.
pub fn area_stays_short()
    ensures { AreaStaysShort }
{}

/// Headers are acknowledged in order of key, those of one key in the order they came.
pub fn acknowledgements_are_ordered()
    ensures { AcknowledgementsAreOrdered }
{}

/// As many of them go in a packet as fit the MTU.
pub fn acknowledgements_are_packed()
    ensures { AcknowledgementsArePacked }
{}
