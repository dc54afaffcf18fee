//! Which router keeps the premise of the headline from holding.

ghost use Rattle.std.specs.Prelude.{◌≡◌, IfOk, string_bytes};
ghost use Rattle.ospf_views.specs.Disagreements.{disagreement_line, from_line, why_headline_line};

use crate::shown::ListedShown;
use ospf_base::RouterId;
use ospf_journal::Difference;
use std::alloc::{AllocError, Global};
use std::fmt::{self, Display, Formatter, Write};

/// A router that another one reaches, and that keeps the premise from holding for that one.
#[derive(Clone, Copy, Debug, PartialEq, Eq)]
pub struct Disagreement {
    /// The router that reaches it.
    pub from: RouterId,
    pub router: RouterId,
    pub difference: Difference,
}

/// As `3.3.3.3 is listed, reached and does not run`.
impl Display for Disagreement {
    ghost use Rattle.std.specs.Prelude.{Some};
    ghost use Rattle.ospf_views.specs.Disagreements.{disagreement_text};

    ghost output = { λ disagreement. Some (disagreement_text disagreement) };

    fn fmt<W: Write>(&self, f: &mut Formatter<W>) -> fmt::Result {
        let router = self.router;
        match self.difference {
            Difference::Stopped => write!(f, "{router} is listed, reached and does not run"),
            Difference::Lacks(lsa) => write!(f, "{router} does not list {}", ListedShown(lsa)),
            Difference::Lists(lsa) => {
                write!(f, "{router} lists another LSA: {}", ListedShown(lsa))
            }
        }
    }
}

/// The answer to `why headline`.
///
/// `AllocError` if memory runs out.
pub fn why_headline_line(
    alloc: Global,
    router: RouterId,
    found: &Option<Disagreement>,
) -> Result<String, AllocError>
    ensures { IfOk result (λ line. string_bytes line ≡ why_headline_line router found.now) }
{
    match found {
        Some(disagreement) => disagreement_line(alloc, disagreement),
        None => format!(in alloc;
            "holds: every router that {router} reaches runs and lists the same LSAs\n"
        ),
    }
}

/// For which router the premise does not hold, and why.
///
/// `AllocError` if memory runs out.
pub fn from_line(alloc: Global, disagreement: &Disagreement) -> Result<String, AllocError>
    ensures { IfOk result (λ line. string_bytes line ≡ from_line disagreement.now) }
{
    let from = disagreement.from;
    let mut line = format!(in alloc; "from {from}: ")?;
    let rest = disagreement_line(alloc, disagreement)?;
    line.push_str(&rest)?;
    Ok(line)
}

// Why a router keeps the premise from holding, as a line.
fn disagreement_line(alloc: Global, disagreement: &Disagreement) -> Result<String, AllocError>
    ensures { IfOk result (λ line. string_bytes line ≡ disagreement_line disagreement.now) }
{
    format!(in alloc; "{disagreement}\n")
}
