//! Two files that configure one router.

ghost use Rattle.std.specs.Prelude.{◌≡◌, ◌≢◌, ◌<◌, ◌++◌, codes, IfNone, IfOk, IfSome, length, string_bytes};
ghost use Rattle.ospf_base.specs.Text.{number_text};
ghost use Rattle.ospf_config.specs.Configs.{ShareRouter};
ghost use Rattle.ospf_files.specs.Twins.{AreFirstTwins, same_router_lines};

use crate::files::NamedFile;
use ospf_base::RouterId;
use ospf_config::Config;
use std::alloc::{AllocError, Global};

/// Two files that configure one router.
#[derive(Clone, Copy)]
pub struct Twins<'a> {
    /// The Router ID that both have.
    pub router: RouterId,
    /// The earlier of the files.
    pub one: &'a NamedFile,
    /// The later of them.
    pub other: &'a NamedFile,
}

/// The first file that has the Router ID of an earlier one, and that earlier one.
pub fn first_twins<'a>(files: &'a [NamedFile], configs: &[Config]) -> Option<Twins<'a>>
    requires { length files.now ≡ length configs.now }
    ensures some { IfSome result (AreFirstTwins files.now configs.now) }
    ensures none { IfNone result (ShareRouter configs.now → ⊥) }
{
    for later in 0..configs.len() {
        if let Some(earlier) = twin_before(configs, later) {
            return Some(Twins {
                router: configs[earlier].router_id,
                one: &files[earlier],
                other: &files[later],
            });
        }
    }
    None
}

/// The lines about them, as `W7 SameRouter`, and below it `  1.1.1.1: a.toml, b.toml`.
///
/// `AllocError` if memory runs out.
pub fn same_router_lines(alloc: Global, twins: Twins<'_>) -> Result<String, AllocError>
    ensures { IfOk result (λ lines. string_bytes lines ≡ same_router_lines twins.entry) }
{
    let mut lines = begun_lines(alloc, twins.router)?;
    lines.push_str(&twins.one.name)?;
    lines.push_str(", ")?;
    lines.push_str(&twins.other.name)?;
    lines.push_str("\n")?;
    Ok(lines)
}

// The fault, and below it the Router ID that two files have.
fn begun_lines(alloc: Global, router: RouterId) -> Result<String, AllocError>
    ensures { IfOk result (λ lines. string_bytes lines
        ≡ codes "W7 SameRouter\n  " ++ number_text router.0 ++ codes ": ") }
{
    format!(in alloc; "W7 SameRouter\n  {router}: ")
}

// The configuration before this one that has its Router ID.
fn twin_before(configs: &[Config], later: usize) -> Option<usize>
    requires { later < length configs.now }
    ensures some { IfSome result (λ earlier. (twins : ShareRouter configs.now)
        × (twins.place ≡ earlier) × (twins.later ≡ later)) }
    ensures none { IfNone result ((twins : ShareRouter configs.now) → twins.later ≢ later) }
{
    for earlier in 0..later {
        if configs[earlier].router_id == configs[later].router_id {
            return Some(earlier);
        }
    }
    None
}
