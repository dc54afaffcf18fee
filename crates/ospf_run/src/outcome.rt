//! The outcomes of routers that ran.

use ospf_base::{Addr, RouterId};
use ospf_drive::DriveFault;
use ospf_fib::Answer;
use ospf_files::NamedFile;
use ospf_router::Router;
use ospf_router::step::DropCounts;

/// An address, and what a lookup found for it.
#[derive(Clone, Copy)]
pub struct Looked {
    pub address: Addr,
    pub answer: Option<Answer>,
}

/// A router whose driver reached the end, and what a lookup in the table that was published last
/// found.
#[derive(Drop)]
pub struct RouterShown {
    pub router: Router,
    pub looked: Option<Looked>,
}

/// The outcome of the router of a file.
#[derive(Drop)]
pub struct Outcome<'a> {
    pub file: &'a NamedFile,
    pub router: RouterId,
    pub came: Result<RouterShown, DriveFault>,
}

/// How many packets a router dropped, by link and cause.
#[derive(Debug, Drop)]
pub struct Drops {
    pub router: RouterId,
    pub links: Vec<DropCounts>,
}

/// What is printed of each router besides its table and a lookup.
#[derive(Debug, Drop)]
pub struct Extras {
    /// Its neighbours.
    pub neighbours: bool,
    /// Its listing.
    pub listing: bool,
    /// All LSAs of its LSDB.
    pub lsdb: bool,
    /// What all the routers dropped.
    pub drops: Vec<Drops>,
    /// The floor of its numbers.
    pub floor: bool,
}
