//! Running OSPF routers.

ghost use Rattle.std.specs.Prelude.{◌≡◌, ◌≢◌};
ghost use Rattle.ospf_drive.specs.Machines.{router_rules};
ghost use Rattle.ospf_files.specs.Streams.{written_on};
ghost use Rattle.ospf_run.specs.Cut.{EndsRun};
ghost use Rattle.ospf_run.specs.Runs.{IsHindered, IsPlanRun, asked_of};

use crate::run::run_text;
use crate::settings::Settings;
use crate::tap::Tap;
use ospf_drive::{Router, routers_go_by_their_steps};
use ospf_files::{NamedFile, Status};
use std::alloc::Global;
use std::io::Write;
use std::net::Net;
use std::sync::Wait;
use std::thread::Threads;
use std::time::Clock;

/// Runs an OSPF router for each configuration that files hold: `run_text` with routers, each of
/// which follows the exact steps of RFC 2328 (`router_rules`) and no other rules.
///
/// What it prints, when it ends and with which status is as for `run_text`.
pub fn run_routers<
    R: Net + Threads + Wait + Clock + Copy + Send + Drop + 'static,
    T: Tap + Send + Drop + 'static,
    O: Write,
    E: Write,
>(
    rt: &R,
    alloc: Global,
    settings: &Settings,
    files: &[NamedFile],
    tap: &T,
    out: &mut O,
    err: &mut E,
) -> Status
    ensures done { let old = written_on (O.contents out.old) (E.contents err.old) in
        let new = written_on (O.contents out.new) (E.contents err.new) in
        result ≡ Status.Done →
        IsPlanRun router_rules (asked_of settings.now) files.now Status.Done old new }
    ensures refused { let old = written_on (O.contents out.old) (E.contents err.old) in
        let new = written_on (O.contents out.new) (E.contents err.new) in
        result ≡ Status.Refused →
        IsHindered (asked_of settings.now) files.now Status.Refused old new }
    // However it ends, the run has reached its end, or a failure has cut it short.
    ensures ended { let old = written_on (O.contents out.old) (E.contents err.old) in
        let new = written_on (O.contents out.new) (E.contents err.new) in
        EndsRun router_rules (asked_of settings.now) files.now result old new }
    ensures not_words { result ≢ Status.Words }
{
    // For the proof.
    routers_go_by_their_steps();
    run_text::<Router, R, T, O, E>(rt, alloc, settings, files, tap, out, err)
}
