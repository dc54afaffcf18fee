//! What a lookup answers.

ghost use Rattle.std.specs.Prelude.{◌≡◌, true};
ghost use Rattle.ospf_fib.specs.Answers.{IsAnswer, IsAnswerOfLast};

use crate::index::IndexedTable;
use crate::shown::ShownTable;
use ospf_base::{Addr, Prefix};
use ospf_graph::NextHop;

/// The route of longest prefix that holds an address (RFC 2328,
/// section 11.1), with one of its hops.
#[derive(Clone, Copy, Debug, PartialEq, Eq)]
pub struct Answer {
    /// The place of the answering table in the list of published tables, modulo 2^64.
    pub version: u64,
    pub prefix: Prefix,
    pub cost: u64,
    /// The one at the caller's choice, modulo the number of hops.
    pub hop: NextHop,
    /// How many hops the route has.
    pub hops: usize,
}

// The answer of what is shown to readers.
pub(crate) fn answer_of_shown(shown: &ShownTable, address: Addr, choice: u32) -> Option<Answer>
    requires { shown.now.live ≡ true }
    ensures { IsAnswerOfLast shown.now.known.tables address choice result }
{
    let version = shown.known.count().wrapping_sub(1);
    answer_of(&shown.table, version, address, choice)
}

// The answer of one table.
fn answer_of(table: &IndexedTable, version: u64, address: Addr, choice: u32) -> Option<Answer>
    ensures { IsAnswer table.now version address choice result }
{
    let found = table.lookup(address)?;
    let hops = found.hops;
    Some(Answer {
        version,
        prefix: found.prefix,
        cost: found.cost,
        hop: hops[choice as usize % hops.len()],
        hops: hops.len(),
    })
}
