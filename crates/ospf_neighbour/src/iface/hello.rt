//! The Hellos of an interface (RFC 2328, sections 9.5 and 10.5).

use crate::iface::machine::Iface;
use ospf_base::{Addr, OPTIONS, RouterId};
use ospf_packet::{BodyValue, Hello};
use std::alloc::{AllocError, Global};

impl Iface {
    ghost use Rattle.std.specs.Prelude.{◌≡◌, IfOk};
    ghost use Rattle.ospf_packet.specs.Meaning.{hello};
    ghost use Rattle.ospf_packet.specs.Said.{body_meant};
    ghost use Rattle.ospf_neighbour.specs.Interface.Hello.{agrees, own_hello};

    /// Whether a Hello agrees with the interface (section 10.5): in HelloInterval,
    /// RouterDeadInterval and the E bit, and on a broadcast link in the mask. No memory is taken.
    pub fn agrees(&self, hello: &Hello) -> bool
        ensures { result ≡ agrees self.now hello.now }
    {
        hello.hello_interval == self.settings.hello
            && hello.dead_interval == self.settings.dead
            && hello.options & OPTIONS == OPTIONS
            && (hello.mask == self.settings.mask || self.settings.is_point_to_point())
    }

    /// The Hello that the interface sends (section 9.5), where it has heard of these
    /// neighbours, in rising Router ID.
    ///
    /// `AllocError` where memory runs out.
    pub fn hello(&self, alloc: Global, neighbours: &[RouterId]) -> Result<BodyValue, AllocError>
        ensures { IfOk result
            (λ body. body_meant body ≡ hello (own_hello self.now) neighbours.now) }
    {
        let neighbours = Vec::from_slice(alloc, neighbours)?;
        Ok(BodyValue::Hello(self.hello_fields(), neighbours))
    }

    // The fields of the Hello that the interface sends.
    fn hello_fields(&self) -> Hello
        ensures { result ≡ own_hello self.now }
    {
        let (designated, backup) = if self.settings.is_point_to_point() {
            (Addr::NOWHERE, Addr::NOWHERE)
        } else {
            (self.dr, self.backup)
        };
        Hello {
            mask: self.settings.mask,
            hello_interval: self.settings.hello,
            options: OPTIONS,
            priority: self.settings.priority,
            dead_interval: self.settings.dead,
            designated,
            backup,
        }
    }
}
