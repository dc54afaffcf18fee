//! The rule of the shared table: all that read it and write it mean one list of published tables.
//! It is only for proofs, and nothing here has bytes.

use crate::index::Counter;
use crate::shown::ShownTable;
use atomic_table::{Join, Split};
use crossbeam_utils::rule::{Outcome, Protocol};

/// Which list a place knows, by its counter. One that is not named knows none.
pub(crate) struct Knows {
    pub named: bool,
    pub counter: Counter,
}

/// Each place knows the list of the table that is shown, or none.
pub(crate) struct OneList;

impl Protocol<ShownTable, Knows> for OneList {
    ghost use Rattle.ospf_fib.specs.Rule.{IsOneList, newcomer};

    ghost holds = { IsOneList };

    ghost first = { newcomer };
}

/// A reader's entry.
pub(crate) struct Enters;

impl Outcome<ShownTable, Knows> for Enters {
    ghost use Rattle.ospf_fib.specs.Rule.{FindsItsList};

    ghost then = { FindsItsList };
}

/// The writer's swap.
pub(crate) struct Swaps;

impl Outcome<ShownTable, Knows> for Swaps {
    ghost use Rattle.ospf_fib.specs.Rule.{NamesTheList};

    ghost then = { NamesTheList };
}

/// The writer gives a new seat its list.
pub(crate) struct Tells;

impl Split<Knows> for Tells {
    ghost left = { λ v. v };

    ghost right = { λ v. v };
}

impl Join<Knows> for Tells {
    ghost use Rattle.ospf_fib.specs.Rule.{newcomer};

    ghost both = { λ v w. w };

    ghost spent = { newcomer };
}
