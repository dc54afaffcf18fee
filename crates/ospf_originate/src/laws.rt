//! Laws: each holds of all numbers and routers.

ghost use Rattle.ospf_originate.specs.Laws.{AreaStaysSound, StartsSound, IssueIsNext, IssuedIsKept, IssuedWaits, NextIsNewer, OwnStayShort, OwnStaySound, PartsStaySound};

/// An issued LSA's number is recorded.
pub fn issued_is_kept()
    ensures { IssuedIsKept }
{}

/// The key of an issued LSA waits from its tick on.
pub fn issued_waits()
    ensures { IssuedWaits }
{}

/// An issue is of what is wanted, with the number after the recorded one.
pub fn issue_is_next()
    ensures { IssueIsNext }
{}

/// What is issued is newer than a copy whose number was recorded.
pub fn next_is_newer()
    ensures { NextIsNewer }
{}

/// A router that starts has what it needs for its own LSAs, and keeps it with other links.
pub fn starts_sound()
    ensures { StartsSound }
{}

/// What a router records for its own LSAs stays valid when they are issued and flushed.
pub fn own_stay_sound()
    ensures { OwnStaySound }
{}

/// It stays valid when Updates and acknowledgements are processed, LSAs age, and LSAs leave.
pub fn area_stays_sound()
    ensures { AreaStaysSound }
{}

/// Each call of `ospf_area` and `ospf_area` that these consist of keeps it valid too.
pub fn parts_stay_sound()
    ensures { PartsStaySound }
{}

/// What is issued is at most `ospf_base::LARGEST_LSA` bytes long, and leaves each LSA
/// of the database no longer than that.
pub fn own_stay_short()
    ensures { OwnStayShort }
{}
