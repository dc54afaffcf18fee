//! The words behind `walk`.

ghost use Rattle.std.specs.Prelude.{◌≡◌, ℕ, List, IfOk, IfErr, IfSome, IfNone};
ghost use Rattle.ospf_base.specs.declared.ids.Addr.{Addr};
ghost use Rattle.ospf_base.specs.declared.ids.RouterId.{RouterId};
ghost use Rattle.ospf_script.specs.Commands.{BeginsWalk, IsLongWalk, IsWalkWords};
ghost use Rattle.ospf_script.specs.Words.{Text, line_words};

use crate::fault::CommandFault;
use crate::several::values_in;
use crate::values::{address_of, router_of};
use crate::words::first_word;
use ospf_base::{Addr, RouterId};
use std::alloc::Global;

// A Router ID, an address and choices.
pub(crate) fn walk_in(
    alloc: Global,
    text: &[u8],
) -> Result<(RouterId, Addr, Vec<u32>), CommandFault>
    ensures ok { IfOk result (λ found. IsWalkWords (line_words text.now) found.0 found.1
        found.2.items) }
    ensures not_a_walk { IfErr result (λ e. e ≡ CommandFault.NotACommand →
        (from : RouterId) (address : Addr) (choices : List ℕ) →
        IsWalkWords (line_words text.now) from address choices → ⊥) }
    ensures memory { IfErr result (λ e. e ≡ CommandFault.Memory →
        IsLongWalk (line_words text.now)) }
{
    let (from, address, rest) = ends_in(text).ok_or(CommandFault::NotACommand)?;
    let choices = values_in(alloc, rest)?;
    Ok((from, address, choices))
}

// A Router ID and an address, and the text after them.
pub(crate) fn ends_in(text: &[u8]) -> Option<(RouterId, Addr, &[u8])>
    ensures some { IfSome result (λ found. BeginsWalk (line_words text.now) found.0 found.1
        (line_words found.2.now)) }
    ensures none { IfNone result ((from : RouterId) (address : Addr) (rest : List Text) →
        BeginsWalk (line_words text.now) from address rest → ⊥) }
{
    let (from, rest) = first_word(text)?;
    let (address, rest) = first_word(rest)?;
    Some((router_of(from)?, address_of(address)?, rest))
}
