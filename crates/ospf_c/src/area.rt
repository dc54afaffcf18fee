//! LSAs in words, paths, changed areas, and differences.

ghost use Rattle.std.specs.Prelude.{◌≡◌, ℕ, List, Result, IfOk, None, Some};
ghost use Rattle.ospf_files.specs.declared.report.Report.{Report};
ghost use Rattle.ospf_files.specs.declared.status.Failure.{Failure};
ghost use Rattle.ospf_inspect.specs.Answer.{IsInspectPrinted};
ghost use Rattle.ospf_inspect.specs.declared.answer.InspectJob.TheVariants as job;
ghost use Rattle.ospf_c.specs.Answered.{IsAnswered, IsHandedOver, nothing, streams};
ghost use Rattle.ospf_c.specs.Changes.{AreJobWords, IsDiffOf, IsEditOf, root_of};
ghost use Rattle.ospf_c.specs.Tables.{AsksForPath, IsPathOf, form_of};

use crate::answer::{Answer, answer_with, hand_over};
use crate::words::words_of;
use ospf_base::{Addr, RouterId};
use ospf_change::diff::{DiffJob, DiffNames, diff_report};
use ospf_change::edit::{EditJob, edit_report};
use ospf_files::{Failure, Report};
use ospf_inspect::{Form, InspectJob, inspect_text};
use std::alloc::{AllocError, Global};

/// Each LSA in words, as `ospfd lsas` prints them, or with `json` as `ospfd lsas --json`
/// (`ospf_inspect::lsas_text`).
#[unsafe(no_mangle)]
pub extern "C" fn ospf_lsas(
    alloc: Global,
    lsas: &[u8],
    json: bool,
    room: &mut [u8],
    answer: &mut Answer,
)
    ensures { (text : List ℕ) × (warnings : List ℕ) × (code : ℕ)
        × IsInspectPrinted (job.Lsas (form_of json)) (Some lsas.now) nothing
        (streams text warnings) code
        × IsAnswered text warnings code room.old room.new answer.new }
{
    inspect(alloc, &InspectJob::Lsas(form_of(json)), lsas, room, answer)
}

/// The area as a drawing for Graphviz, as `ospfd lsas --dot` prints it.
#[unsafe(no_mangle)]
pub extern "C" fn ospf_dot(alloc: Global, lsas: &[u8], room: &mut [u8], answer: &mut Answer)
    ensures { (text : List ℕ) × (warnings : List ℕ) × (code : ℕ)
        × IsInspectPrinted job.Drawing (Some lsas.now) nothing (streams text warnings) code
        × IsAnswered text warnings code room.old room.new answer.new }
{
    inspect(alloc, &InspectJob::Drawing, lsas, room, answer)
}

/// The path from a router to an address, as `ospfd path ROUTER ADDRESS CHOICE..` prints it: a
/// choice is the place of the next hop to take, from 0, where there are several
/// (`ospf_inspect::path_text`).
#[unsafe(no_mangle)]
pub extern "C" fn ospf_path(
    alloc: Global,
    lsas: &[u8],
    from: u32,
    address: u32,
    choices: &[u32],
    room: &mut [u8],
    answer: &mut Answer,
)
    ensures { (text : List ℕ) × (warnings : List ℕ) × (code : ℕ)
        × IsPathOf lsas.now from address choices.now text warnings code
        × IsAnswered text warnings code room.old room.new answer.new }
{
    match path_job(alloc, from, address, choices) {
        Ok(job) => inspect(alloc, &job, lsas, room, answer),
        Err(AllocError) => hand_over(Err(Failure::Memory), room, answer),
    }
}

/// The LSAs of an area after changes, as `ospfd edit` prints them
/// (`ospf_change::edit::edit_report`). The three texts have a word on each line: names of what goes
/// down, then new costs as `ROUTER@ADDRESS=COST` or `ROUTER-ROUTER=COST`, then Router IDs of
/// drained routers.
///
/// What is not UTF-8 in them is read as U+FFFD, and so names nothing.
#[unsafe(no_mangle)]
pub extern "C" fn ospf_edit(
    alloc: Global,
    lsas: &[u8],
    down: &[u8],
    costs: &[u8],
    drains: &[u8],
    room: &mut [u8],
    answer: &mut Answer,
)
    ensures { (report : Result Report Failure)
        × IsEditOf lsas.now down.now costs.now drains.now report
        × IsHandedOver report room.old room.new answer.new }
{
    hand_over(changed(alloc, lsas, down, costs, drains), room, answer)
}

/// What changed between two databases, over the tables of all routers, as `ospfd diff BEFORE AFTER`
/// prints it (`ospf_change::diff::diff_report`). Warnings call the databases `before` and `after`.
#[unsafe(no_mangle)]
pub extern "C" fn ospf_diff(
    alloc: Global,
    before: &[u8],
    after: &[u8],
    room: &mut [u8],
    answer: &mut Answer,
)
    ensures { (report : Result Report Failure) × IsDiffOf None before.now after.now report
        × IsHandedOver report room.old room.new answer.new }
{
    hand_over(different(alloc, None, before, after), room, answer)
}

/// The same over the table of one router, as `ospfd diff --root ROOT BEFORE AFTER` prints it.
#[unsafe(no_mangle)]
pub extern "C" fn ospf_diff_at(
    alloc: Global,
    before: &[u8],
    after: &[u8],
    root: u32,
    room: &mut [u8],
    answer: &mut Answer,
)
    ensures { (report : Result Report Failure) × IsDiffOf (root_of root) before.now after.now report
        × IsHandedOver report room.old room.new answer.new }
{
    hand_over(
        different(alloc, Some(RouterId(root)), before, after),
        room,
        answer,
    )
}

// Answers what a job asks about LSAs.
pub(crate) fn inspect(
    alloc: Global,
    job: &InspectJob,
    lsas: &[u8],
    room: &mut [u8],
    answer: &mut Answer,
)
    ensures { (text : List ℕ) × (warnings : List ℕ) × (code : ℕ)
        × IsInspectPrinted job.now (Some lsas.now) nothing (streams text warnings) code
        × IsAnswered text warnings code room.old room.new answer.new }
{
    let mut out = Vec::new(alloc);
    let mut err = Vec::new(alloc);
    let status = inspect_text(alloc, job, lsas, &mut out, &mut err);
    answer_with(&out, &err, status, room, answer)
}

// JSON, or lines of text.
pub(crate) fn form_of(json: bool) -> Form
    ensures { result ≡ form_of json }
{
    if json { Form::Json } else { Form::Text }
}

// The job that asks for a path.
fn path_job(
    alloc: Global,
    from: u32,
    address: u32,
    choices: &[u32],
) -> Result<InspectJob, AllocError>
    ensures { IfOk result (AsksForPath from address choices.now) }
{
    let choices = Vec::from_slice(alloc, choices)?;
    Ok(InspectJob::Path {
        from: RouterId(from),
        address: Addr(address),
        choices,
    })
}

// What is printed of an area after changes.
fn changed(
    alloc: Global,
    lsas: &[u8],
    down: &[u8],
    costs: &[u8],
    drains: &[u8],
) -> Result<Report, Failure>
    ensures { IsEditOf lsas.now down.now costs.now drains.now result }
{
    match edit_job(alloc, down, costs, drains) {
        Ok(job) => edit_report(alloc, &job, lsas),
        Err(AllocError) => Err(Failure::Memory),
    }
}

// The job that three texts with a word on each line ask for.
fn edit_job(alloc: Global, down: &[u8], costs: &[u8], drains: &[u8]) -> Result<EditJob, AllocError>
    ensures { IfOk result (AreJobWords down.now costs.now drains.now) }
{
    let down = words_of(alloc, down)?;
    let costs = words_of(alloc, costs)?;
    let drains = words_of(alloc, drains)?;
    Ok(EditJob {
        down,
        costs,
        drains,
    })
}

// What is printed of two databases.
fn different(
    alloc: Global,
    root: Option<RouterId>,
    before: &[u8],
    after: &[u8],
) -> Result<Report, Failure>
    ensures { IsDiffOf root before.now after.now result }
{
    let names = DiffNames {
        before: "before",
        after: "after",
    };
    diff_report(alloc, &DiffJob { root }, names, before, after)
}
