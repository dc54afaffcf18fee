//! Values that a word may spell.

ghost use Rattle.ospf_script.specs.Values.{IsDecimal, IsHopWord};
ghost use Rattle.ospf_script.specs.Words.{Finds, Text};

use crate::values::{address_of, number_up_to, parts_at, router_of};
use ospf_graph::NextHop;

/// What a word may spell.
pub trait Spelled: Copy {
    ghost is_spelled: { Text → Self → Type 0 };

    /// The value that a word spells; `None` of a word that spells none.
    fn of_word(word: &[u8]) -> Option<Self>
        ensures { Finds result (is_spelled word.now) };
}

/// A number of 32 bits, in decimal digits.
impl Spelled for u32 {
    ghost is_spelled = { IsDecimal 32 };

    fn of_word(word: &[u8]) -> Option<u32> {
        Some(number_up_to(word, u64::from(u32::MAX))? as u32)
    }
}

/// A next hop, as a routing table is printed with it.
impl Spelled for NextHop {
    ghost is_spelled = { IsHopWord };

    fn of_word(word: &[u8]) -> Option<NextHop> {
        if word == b"attached".as_slice() {
            return Some(NextHop::Attached);
        }
        let (local, behind) = parts_at(word, b'>')?;
        let local = address_of(local)?;
        let Some((router, address)) = parts_at(behind, b'@') else {
            let router = router_of(behind)?;
            return Some(NextHop::PointToPoint { local, router });
        };
        let (router, address) = (router_of(router)?, address_of(address)?);
        Some(NextHop::Lan {
            local,
            router,
            address,
        })
    }
}
