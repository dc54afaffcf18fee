//! Simulations of an area.

ghost use Rattle.std.specs.Prelude.{◌≡◌, ℕ, List, IfOk, Some};
ghost use Rattle.ospf_files.specs.Files.{bytes_of};
ghost use Rattle.ospf_c.specs.Answered.{IsAnswered};
ghost use Rattle.ospf_c.specs.Files.{AreGivenFiles};
ghost use Rattle.ospf_c.specs.Simulated.{IsSimulationOf};

use crate::answer::{Answer, answer_with, hand_over};
use crate::files::{File, named_files};
use ospf_files::{Failure, NamedFile};
use ospf_sim::{EventWatch, Watch, World, WorldEvent, WorldFault, sim_text};
use std::alloc::{AllocError, Global};

/// Runs the lines of a script in a world of the routers that files configure, as
/// `ospfd sim SCRIPT CONFIG..` does, or with `strict` as with `--strict` (`ospf_sim::sim_text`).
#[unsafe(no_mangle)]
pub extern "C" fn ospf_sim(
    alloc: Global,
    script: &[u8],
    files: &[File],
    strict: bool,
    room: &mut [u8],
    answer: &mut Answer,
)
    ensures { (text : List ℕ) × (warnings : List ℕ) × (code : ℕ)
        × IsSimulationOf strict script.now files.now text warnings code
        × IsAnswered text warnings code room.old room.new answer.new }
{
    let mut out = Vec::new(alloc);
    let mut err = Vec::new(alloc);
    match sim_files(alloc, script, files) {
        Ok((script, files)) => {
            let simulated = sim_text(
                alloc,
                &script,
                &files,
                strict,
                &mut out,
                &mut err,
                &mut Unwatching,
            );
            answer_with(&out, &err, simulated.end.code(), room, answer)
        }
        Err(AllocError) => hand_over(Err(Failure::Memory), room, answer),
    }
}

// Nobody watches a simulation.
#[derive(Clone, Copy)]
struct Unwatching;

impl EventWatch for Unwatching {
    fn comes(&mut self, _world: &World, _event: &WorldEvent) {}

    fn came(&mut self, _world: &World, _event: &WorldEvent, _answer: &Result<(), WorldFault>) {}
}

impl Watch for Unwatching {
    fn begins_round(&mut self, _done: u64, _count: u64) {}

    fn draws_events(&mut self, _done: u64, _count: u64) {}

    fn ends_line(&mut self) {}
}

// The files of a simulation: its script and its configurations.
fn sim_files(
    alloc: Global,
    script: &[u8],
    files: &[File],
) -> Result<(NamedFile, Vec<NamedFile>), AllocError>
    ensures script { IfOk result (λ found. bytes_of found.0 ≡ Some script.now) }
    ensures files { IfOk result (λ found. AreGivenFiles files.now found.1.items) }
{
    let named = named_files(alloc, files)?;
    let name = String::from_str(alloc, "script")?;
    let bytes = Vec::from_slice(alloc, script)?;
    let script = NamedFile {
        name,
        bytes: Some(bytes),
    };
    Ok((script, named))
}
