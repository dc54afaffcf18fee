//! Ids, addresses and prefixes as text.

ghost use Rattle.std.specs.Fmt.{WritesOnOk};
ghost use Rattle.ospf_base.specs.Text.{number_text};

use crate::ids::{Addr, AreaId, RouterId};
use crate::prefix::Prefix;
use std::fmt::{self, Display, Formatter, Write};

/// Dotted, as `10.0.0.1`.
impl Display for RouterId {
    ghost use Rattle.std.specs.Prelude.{Some};
    ghost use Rattle.ospf_base.specs.Text.{number_text};

    ghost output = { λ id. Some (number_text id.0) };

    fn fmt<W: Write>(&self, f: &mut Formatter<W>) -> fmt::Result {
        write_dotted(f, self.0)
    }
}

/// Dotted, as `0.0.0.1`.
impl Display for AreaId {
    ghost use Rattle.std.specs.Prelude.{Some};
    ghost use Rattle.ospf_base.specs.Text.{number_text};

    ghost output = { λ area. Some (number_text area.0) };

    fn fmt<W: Write>(&self, f: &mut Formatter<W>) -> fmt::Result {
        write_dotted(f, self.0)
    }
}

/// Dotted, as `10.0.0.1`.
impl Display for Addr {
    ghost use Rattle.std.specs.Prelude.{Some};
    ghost use Rattle.ospf_base.specs.Text.{number_text};

    ghost output = { λ address. Some (number_text address.0) };

    fn fmt<W: Write>(&self, f: &mut Formatter<W>) -> fmt::Result {
        write_dotted(f, self.0)
    }
}

/// Address and length, as `10.0.0.0/30`.
impl Display for Prefix {
    ghost use Rattle.std.specs.Prelude.{Some};
    ghost use Rattle.ospf_base.specs.Text.{prefix_text};

    ghost output = { λ prefix. Some (prefix_text prefix) };

    fn fmt<W: Write>(&self, f: &mut Formatter<W>) -> fmt::Result {
        write!(f, "{}/{}", self.address, self.length)
    }
}

// Four numbers with dots between them.
#[tactic(auto, unfolding(crate::specs::Text::number_text))]
fn write_dotted<W: Write>(f: &mut Formatter<W>, number: u32) -> fmt::Result
    ensures { WritesOnOk W.Write.write_str_gives f.old result (number_text number) f.new }
{
    let [a, b, c, d] = number.to_be_bytes();
    write!(f, "{a}.{b}.{c}.{d}")
}
