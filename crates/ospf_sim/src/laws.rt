//! A law: what the journal of a simulation reports as issued.

ghost use Rattle.ospf_sim.specs.Issues.{JournalsHaveIssues};

/// What an event adds to the journal as issued (`Events`) is what the exact step of its router
/// issued, each LSA once and in that order; if the event steps no router, it is nothing.
pub fn journals_have_issues()
    ensures { JournalsHaveIssues }
{}
