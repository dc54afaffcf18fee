//! What is asked of the failures of an area, for LSAs that are read as lines of text.

ghost use Rattle.std.specs.Prelude.{◌≡◌, ◌≢◌, ◌⊎◌, ◌↔◌, ◌<◌, List, [], Option, ℕ, IfOk, IfErr, IfSome, IsTrue, string_bytes};
ghost use Rattle.ospf_graph.specs.EdgeLists.Listed.{advertisements_of};
ghost use Rattle.ospf_files.specs.Streams.{written_on};
ghost use Rattle.ospf_files.specs.declared.status.Status.{Status};
ghost use Rattle.ospf_files.specs.declared.streams.FailedStreams.{FailedStreams};
ghost use Rattle.ospf_table.specs.Line.{LeavesOut, Reads};
ghost use Rattle.ospf_whatif.specs.Failure.{HasLarge};
ghost use Rattle.ospf_harm.specs.declared.carrier.Carrier.{Carrier};
ghost use Rattle.ospf_failures.specs.Answer.{FailuresEndsBy, IsFailuresAnswerOf, IsRebuilding, IsFailuresAnswered, IsFailuresCutShort, IsFailuresEnding, IsUnreported, HasRouter, IsRefusalOf, IsFailuresRefusalTold, IsFailuresSaid, IsUnserved, SaysOf, SaysOverall, WarnsOf, added_text, detail_of, head_of, names_of};
ghost use Rattle.ospf_harm.specs.Asked.{IsAllPrinted};
ghost use Rattle.ospf_harm.specs.Said.{SaysChanges, form_head};
ghost use Rattle.ospf_failures.specs.declared.answer.FailuresJob.{FailuresJob};
ghost use Rattle.ospf_failures.specs.Without.{IsFaultOfNames, IsFirstUnnamed};
ghost use Rattle.ospf_harm.specs.Asked.{IsRebuiltFor};

use crate::overall::{
    Overall, RouteDetail, cuts_somewhere, overalls, overalls_harm_text, overalls_json,
    overalls_lines, overalls_text,
};
use crate::progress::Progress;
use crate::report::reports_in_threads;
use crate::shown::shown_overalls;
use crate::without::text_without;
use ospf_base::{Addr, Kind, RouterId};
use ospf_files::{FailedStreams, Failure, Status};
use ospf_harm::{
    Carrier, FailuresForm, FailuresStatus, HiddenCost, PrintedText, RouterFailures, Unread,
    area_warnings, cases_of, changes_said, end_of, form_head, hidden_costs_by, read_area,
    root_warning, router_warnings,
};
use ospf_lsa::Listing;
use ospf_table::CountedListing;
use std::alloc::{AllocError, Global};
use std::io::{BufRead, Write};
use std::thread::Threads;

/// What is asked of the failures of an area.
#[derive(Debug, Drop)]
pub enum FailuresJob {
    /// What each failure but its own changes in a router's table.
    Root(RouterFailures),
    /// What each failure changes in the tables of all routers but the one that fails.
    All {
        /// Whether each changed prefix of a router is printed.
        each: bool,
        /// Whether the status reports that a prefix is cut off from a router, or that no router is
        /// listed.
        strict: bool,
        /// How it is printed.
        form: FailuresForm,
        /// What carries the links: it decides what fails together. `Process` is the default.
        carrier: Carrier,
    },
    /// The routing table of a router in the area without some of its parts.
    Without {
        root: RouterId,
        /// The names of the parts, as `ospf_table::find_failure` takes them.
        names: Vec<String>,
        /// The addresses to look up in the table.
        addresses: Vec<Addr>,
    },
}

impl FailuresJob {
    ghost use Rattle.std.specs.Prelude.{◌↔◌, IsTrue};
    ghost use Rattle.ospf_failures.specs.Answer.{IsRebuilding};

    // Whether router-LSAs are rebuilt.
    fn is_rebuilding(&self) -> bool
        ensures { IsTrue result ↔ IsRebuilding self.now }
    {
        match self {
            FailuresJob::Root(asked) => asked.is_rebuilding(),
            FailuresJob::All { carrier, .. } => *carrier == Carrier::Direct,
            FailuresJob::Without { names, .. } => !names.is_empty(),
        }
    }
}

// Why nothing is printed: the input or a name is refused, with this text; or something failed.
#[derive(Drop)]
pub(crate) enum Unreported {
    Refused(String),
    Unnamed(String),
    Failure(Failure),
}

impl From<AllocError> for Unreported {
    ghost use Rattle.std.specs.Prelude.{◌≡◌};
    ghost use Rattle.ospf_files.specs.declared.status.Failure.TheVariants as failure;
    ghost use Rattle.ospf_failures.specs.declared.answer.Unreported.TheVariants as fault;

    ghost from_gives = { λ _ f. f ≡ fault.Failure failure.Memory };

    fn from(_error: AllocError) -> Unreported {
        Unreported::Failure(Failure::Memory)
    }
}

/// Reads LSAs, one per line in hexadecimal as `ospf_table::table_text` does, and prints what the
/// job asks about failures in their area.
///
/// For a root it prints what each single failure except its own changes in the root's routing
/// table: with `each` one line per changed prefix, then a line with the counts. Failures that cut
/// off the most prefixes come first. Over all routers it prints the same, added up, and the line of
/// a prefix begins with the router whose table changes. Both are lines or JSON (`reports_json`,
/// `overalls_json`). The third job prints the root's table in the area without the named parts,
/// with lookups, as `table_text` does.
///
/// The carrier decides what may fail and what fails together (`ospf_harm::Carrier`). With
/// `Process` each failure happens alone. With `Switch` the two ends of a link fail separately, each
/// named `ROUTER:OTHER@SUBNET`. With `Direct` a failed router takes the subnets of its links with
/// it, and a network of two routers fails as a whole.
///
/// If the root's router-LSA is not listed, `err` says so. Over failures it also names the stub
/// routers that a failure leaves as the only router on a network, at a cost that no LSA contains,
/// and why routes may be missing (`ospf_table::reasons_text`).
///
/// The status is `Ended(Done)`. With `strict` it is `Unmet` if some failure cuts a prefix off, or
/// if the root's router-LSA is not listed, or over all routers if none is. If a line is refused,
/// the first such line is reported on `err`, with status `Ended(Refused)`. Otherwise, where parts
/// are named or the carrier is `Direct`, router-LSAs are rebuilt: the first router whose router-LSA
/// has more than 1,361 links is reported, also with `Ended(Refused)`, or else the first name that
/// is not in the area, with status `Ended(Words)`. In these cases nothing is printed.
///
/// `Ended(Memory)` says that memory ran out, and `Ended(Stream)` that a read or a write failed. The
/// cause is reported on `err`, as far as that can be written, and no more than a beginning is
/// printed. `progress` receives how many routers are done.
pub fn failures_text<R: BufRead + Drop, O: Write, E: Write, P: Progress>(
    rt: &(impl AllocGlobal + Threads + Sync),
    job: &FailuresJob,
    input: R,
    out: &mut O,
    err: &mut E,
    progress: &mut P,
) -> FailuresStatus
    // All is printed; or the refusal is reported, and nothing is printed.
    ensures answered { let old = written_on (O.contents out.old) (E.contents err.old) in
        let new = written_on (O.contents out.new) (E.contents err.new) in
        IsAllPrinted result →
        IfSome (R.remaining input) (IsFailuresAnswered job.now result old new) }
    ensures refused { (s : Status) → IsUnserved s → result ≡ FailuresStatus.Ended s →
        IfSome (R.remaining input)
        (IsFailuresRefusalTold job.now s (E.contents err.old) (E.contents err.new)) }
    ensures unwritten { (s : Status) → IsUnserved s → result ≡ FailuresStatus.Ended s →
        O.contents out.new ≡ O.contents out.old }
    // Or memory or a stream failed, which is reported last, as far as it can be. There is no other
    // end.
    ensures cut { let old = written_on (O.contents out.old) (E.contents err.old) in
        let new = written_on (O.contents out.new) (E.contents err.new) in
        (result ≡ FailuresStatus.Ended Status.Memory)
        ⊎ (result ≡ FailuresStatus.Ended Status.Stream) →
        (failed : FailedStreams)
        × IsFailuresCutShort (R.remaining input) job.now failed old new result }
    ensures not_words { names_of job.now ≡ [] → result ≢ FailuresStatus.Ended Status.Words }
{
    let mut streams = FailedStreams::none();
    failures_noted(rt, job, input, out, err, &mut streams, progress)
}

// What will be printed.
#[derive(Drop)]
struct FailuresAnswer {
    warning: String,
    said: PrintedText,
}

// Prints what is asked, as `failures_text`, and notes which streams fail.
fn failures_noted<R: BufRead + Drop, O: Write, E: Write, P: Progress>(
    rt: &(impl AllocGlobal + Threads + Sync),
    job: &FailuresJob,
    input: R,
    out: &mut O,
    err: &mut E,
    streams: &mut FailedStreams,
    progress: &mut P,
) -> FailuresStatus
    ensures { let old = written_on (O.contents out.old) (E.contents err.old) in
        let new = written_on (O.contents out.new) (E.contents err.new) in
        IsFailuresEnding (R.remaining input) job.now streams.new old new result }
{
    match answer_or_refuse(rt, job, input, out, err, streams, progress) {
        Ok(status) => status,
        Err(failure) => FailuresStatus::Ended(failure.tell(err, streams)),
    }
}

// Prints the answer, or reports what is refused. Returns the status to end with.
fn answer_or_refuse<R: BufRead + Drop, O: Write, E: Write, P: Progress>(
    rt: &(impl AllocGlobal + Threads + Sync),
    job: &FailuresJob,
    input: R,
    out: &mut O,
    err: &mut E,
    streams: &mut FailedStreams,
    progress: &mut P,
) -> Result<FailuresStatus, Failure>
    ensures said { let old = written_on (O.contents out.old) (E.contents err.old) in
        let new = written_on (O.contents out.new) (E.contents err.new) in
        IfOk result (IsFailuresSaid (R.remaining input) job.now old new) }
    ensures cut { let old = written_on (O.contents out.old) (E.contents err.old) in
        let new = written_on (O.contents out.new) (E.contents err.new) in
        IfErr result (FailuresEndsBy (R.remaining input) job.now streams.new old new) }
{
    match answer_of(rt.alloc(), rt, job, input, progress) {
        Ok(answer) => print(&answer, out, err, streams),
        Err(Unreported::Refused(text)) => refuse(&text, Status::Refused, err, streams),
        Err(Unreported::Unnamed(text)) => refuse(&text, Status::Words, err, streams),
        Err(Unreported::Failure(failure)) => Err(failure),
    }
}

// What to print about failures in the area whose LSAs are the lines of an input.
fn answer_of<R: BufRead + Drop, P: Progress>(
    alloc: Global,
    rt: &(impl Threads + Sync),
    job: &FailuresJob,
    input: R,
    progress: &mut P,
) -> Result<FailuresAnswer, Unreported>
    ensures answer { IfOk result (λ answer. IfSome (R.remaining input)
        (IsFailuresAnswerOf job.now answer)) }
    ensures whole { IfOk result (λ answer. IsAllPrinted answer.said.end) }
    ensures fault { IfErr result (IsUnreported (R.remaining input) job.now) }
{
    let read = listing_of(alloc, job, input)?;
    let warning = warnings_of(alloc, &read.listing, job)?;
    let head = head_of(alloc, job, &read, &warning)?;
    match said_of(alloc, rt, job, read.listing, progress) {
        Ok(body) => {
            let said = body.below(head)?;
            Ok(FailuresAnswer { warning, said })
        }
        Err(fault) => Err(fault),
    }
}

// The listing of the lines of an input, none of whose routers has too many links where router-LSAs
// are rebuilt.
fn listing_of<R: BufRead + Drop>(
    alloc: Global,
    job: &FailuresJob,
    input: R,
) -> Result<CountedListing, Unreported>
    ensures whole { IfOk result (λ read. IfSome (R.remaining input)
        (λ bytes. Reads bytes [] read.listing)) }
    ensures counted { IfOk result (λ read. IfSome (R.remaining input)
        (λ bytes. LeavesOut bytes read.left_out)) }
    ensures small { IfOk result (λ read. IsRebuilding job.now →
        HasLarge (advertisements_of read.listing) → ⊥) }
    ensures fault { IfErr result (IsUnreported (R.remaining input) job.now) }
{
    match read_area(alloc, job.is_rebuilding(), input) {
        Ok(read) => Ok(read),
        Err(Unread::Refused(text)) => Err(Unreported::Refused(text)),
        Err(Unread::Failure(failure)) => Err(Unreported::Failure(failure)),
    }
}

// The line about what was read, if one comes before those of failures.
fn head_of(
    alloc: Global,
    job: &FailuresJob,
    read: &CountedListing,
    warning: &str,
) -> Result<String, AllocError>
    ensures { IfOk result (λ text. string_bytes text
        ≡ head_of job.now read.now.listing read.now.left_out warning.now) }
{
    match job {
        FailuresJob::Root(asked) => form_head(alloc, asked.form, read, warning),
        FailuresJob::All { form, .. } => form_head(alloc, *form, read, warning),
        FailuresJob::Without { .. } => Ok(String::new(alloc)),
    }
}

// What is printed besides the answer: about the root and costs, and why routes may be missing.
fn warnings_of(alloc: Global, listing: &Listing, job: &FailuresJob) -> Result<String, AllocError>
    ensures { IfOk result (λ text. WarnsOf job.now listing.now (string_bytes text)) }
{
    match job {
        FailuresJob::Root(asked) => router_warnings(alloc, listing, asked.root, asked.carrier),
        FailuresJob::All { carrier, .. } => area_warnings(alloc, listing, *carrier),
        FailuresJob::Without { root, .. } => root_warning(alloc, listing, *root),
    }
}

// What is asked of a listing none of whose routers has too many links where router-LSAs are
// rebuilt.
fn said_of<P: Progress>(
    alloc: Global,
    rt: &(impl Threads + Sync),
    job: &FailuresJob,
    listing: Listing,
    progress: &mut P,
) -> Result<PrintedText, Unreported>
    requires { IsRebuilding job.now → HasLarge (advertisements_of listing) → ⊥ }
    ensures said { IfOk result (λ said. SaysOf job.now (advertisements_of listing)
        (string_bytes said.text) said.end) }
    ensures whole { IfOk result (λ said. IsAllPrinted said.end) }
    ensures fault { IfErr result (IsFaultOfNames
        (IsFirstUnnamed (advertisements_of listing) (names_of job.now))) }
{
    match job {
        FailuresJob::Root(asked) => {
            let said = changes_in_threads(alloc, rt, &listing, asked)?;
            Ok(said)
        }
        FailuresJob::All {
            each,
            strict,
            form,
            carrier,
        } => {
            let at = (&listing, *carrier);
            let said = overalls_said(alloc, rt, at, *each, *strict, *form, progress)?;
            Ok(said)
        }
        FailuresJob::Without {
            root,
            names,
            addresses,
        } => match text_without(alloc, listing, *root, names, addresses) {
            Ok(text) => Ok(PrintedText {
                text,
                end: FailuresStatus::Ended(Status::Done),
            }),
            Err(fault) => Err(fault),
        },
    }
}

// What each failure changes at a root.
fn changes_in_threads(
    alloc: Global,
    rt: &(impl Threads + Sync),
    listing: &Listing,
    asked: &RouterFailures,
) -> Result<PrintedText, AllocError>
    requires small { IsRebuiltFor asked.now → HasLarge (advertisements_of listing.now) → ⊥ }
    ensures said { IfOk result (λ said. SaysChanges asked.now (advertisements_of listing.now)
        (string_bytes said.text) said.end) }
    ensures whole { IfOk result (λ said. IsAllPrinted said.end) }
{
    let cases = cases_of(alloc, listing, asked.carrier, asked.root)?;
    let reports = reports_in_threads(alloc, rt, listing, &cases)?;
    changes_said(alloc, listing, asked, &cases, reports)
}

// What each failure changes at all routers, for a listing and the carrier of its links.
fn overalls_said<P: Progress>(
    alloc: Global,
    rt: &(impl Threads + Sync),
    at: (&Listing, Carrier),
    each: bool,
    strict: bool,
    form: FailuresForm,
    progress: &mut P,
) -> Result<PrintedText, AllocError>
    requires small { at.1 ≡ Carrier.Direct → HasLarge (advertisements_of at.0.now) → ⊥ }
    ensures said { IfOk result (λ said. SaysOverall at.entry.1 (advertisements_of at.entry.0.now)
        each strict form (string_bytes said.text) said.end) }
    ensures whole { IfOk result (λ said. IsAllPrinted said.end) }
{
    let printed = overalls(alloc, rt, at.0, at.1, detail_of(each, form), progress)?;
    let hidden = hidden_costs_by(alloc, at.1, at.0)?;
    let end = end_of(strict, cuts_somewhere(&printed), has_router(at.0));
    let shown = shown_overalls(form, printed);
    let text = added_text(alloc, &shown, each, form, &hidden)?;
    Ok(PrintedText { text, end })
}

// Whether the router-LSA of some router is listed.
fn has_router(listing: &Listing) -> bool
    ensures { IsTrue result ↔ HasRouter (advertisements_of listing.now) }
{
    for lsa in listing.lsas() {
        if let Kind::Router = lsa.view().kind() {
            return true;
        }
    }
    false
}

// What is printed over all routers in a form.
fn added_text(
    alloc: Global,
    printed: &[Overall],
    each: bool,
    form: FailuresForm,
    hidden: &[HiddenCost],
) -> Result<String, AllocError>
    ensures { IfOk result (λ text. string_bytes text
        ≡ added_text form each hidden.now printed.now) }
{
    match form {
        FailuresForm::Text => overalls_text(alloc, printed),
        FailuresForm::Json => overalls_json(alloc, printed, each, hidden),
        FailuresForm::JsonLines => overalls_lines(alloc, printed, each, hidden),
        FailuresForm::Harm => overalls_harm_text(alloc, printed),
    }
}

// What has to be kept of the routes that change.
fn detail_of(each: bool, form: FailuresForm) -> RouteDetail
    ensures { result ≡ detail_of each form }
{
    if !each {
        return RouteDetail::Sums;
    }
    match form {
        FailuresForm::Text => RouteDetail::Lines,
        FailuresForm::Json => RouteDetail::Routes,
        FailuresForm::JsonLines => RouteDetail::Routes,
        FailuresForm::Harm => RouteDetail::Lines,
    }
}

// Prints an answer, behind its warning.
fn print<O: Write, E: Write>(
    answer: &FailuresAnswer,
    out: &mut O,
    err: &mut E,
    streams: &mut FailedStreams,
) -> Result<FailuresStatus, Failure>
    requires { IsAllPrinted answer.now.said.end }
    ensures said { let old = written_on (O.contents out.old) (E.contents err.old) in
        let new = written_on (O.contents out.new) (E.contents err.new) in
        (input : Option (List ℕ)) (job : FailuresJob) →
        IfSome input (IsFailuresAnswerOf job answer.now) →
        IfOk result (IsFailuresSaid input job old new) }
    ensures cut { let old = written_on (O.contents out.old) (E.contents err.old) in
        let new = written_on (O.contents out.new) (E.contents err.new) in
        (input : Option (List ℕ)) (job : FailuresJob) →
        IfSome input (IsFailuresAnswerOf job answer.now) →
        IfErr result (FailuresEndsBy input job streams.new old new) }
{
    if let Err(failure) = streams.tell(err, &answer.warning) {
        return Err(failure);
    }
    match streams.print(out, &answer.said.text) {
        Ok(()) => Ok(answer.said.end),
        Err(failure) => Err(failure),
    }
}

// Reports a refusal, which ends with this status.
fn refuse<E: Write>(
    text: &str,
    status: Status,
    err: &mut E,
    streams: &mut FailedStreams,
) -> Result<FailuresStatus, Failure>
    ensures said { (input : Option (List ℕ)) (job : FailuresJob) (out : Option (List ℕ)) →
        IsRefusalOf input job text.now status → IfOk result (IsFailuresSaid input job
        (written_on out (E.contents err.old)) (written_on out (E.contents err.new))) }
    ensures cut { (input : Option (List ℕ)) (job : FailuresJob) (out : Option (List ℕ)) →
        IsRefusalOf input job text.now status → IfErr result (FailuresEndsBy input job streams.new
        (written_on out (E.contents err.old)) (written_on out (E.contents err.new))) }
{
    match streams.tell(err, text) {
        Ok(()) => Ok(FailuresStatus::Ended(status)),
        Err(failure) => Err(failure),
    }
}
