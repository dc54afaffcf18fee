//! What failures change at a router.

ghost use Rattle.std.specs.Prelude.{◌≡◌, Result, Some};
ghost use Rattle.ospf_files.specs.declared.report.Report.{Report};
ghost use Rattle.ospf_files.specs.declared.status.Failure.{Failure};
ghost use Rattle.ospf_harm.specs.Router.{IsRouterResult};
ghost use Rattle.ospf_c.specs.Answered.{IsHandedOver};
ghost use Rattle.ospf_c.specs.Failures.{asked_at, carrier_of, failures_form_of};

use crate::answer::{Answer, hand_over};
use ospf_base::RouterId;
use ospf_harm::{Carrier, FailuresForm, RouterFailures, failures_report};
use std::alloc::Global;

/// How failures are printed, and what fails together.
#[repr(C)]
#[derive(Clone, Copy, Debug, PartialEq, Eq)]
pub struct How {
    /// 0 for lines of text, 1 for lines of text by harm as `--harm` prints them, 2 for JSON as
    /// `--json` prints it, and more for version 2 of the JSON, as `--json=2` does.
    pub form: u8,
    /// What carries the links: 0 as `--carrier process`, 1 as `--carrier switch`, and more as
    /// `--carrier direct`.
    pub carrier: u8,
    /// Whether each changed prefix is printed, as with `--each`.
    pub each: bool,
    /// Whether the status reports that a prefix is cut off or that the router is not listed, as
    /// with `--strict`.
    pub strict: bool,
}

/// What each failure of an area but that of the router changes in the router's table, as `ospfd
/// failures ROOT` prints it (`ospf_harm::failures_report`).
#[unsafe(no_mangle)]
pub extern "C" fn ospf_failures_at(
    alloc: Global,
    lsas: &[u8],
    root: u32,
    how: &How,
    room: &mut [u8],
    answer: &mut Answer,
)
    ensures { (report : Result Report Failure)
        × IsRouterResult (asked_at root how.now) (Some lsas.now) report
        × IsHandedOver report room.old room.new answer.new }
{
    hand_over(
        failures_report(alloc, &asked_at(root, *how), lsas),
        room,
        answer,
    )
}

// What is asked at a router.
fn asked_at(root: u32, how: How) -> RouterFailures
    ensures { result ≡ asked_at root how }
{
    RouterFailures {
        root: RouterId(root),
        each: how.each,
        strict: how.strict,
        form: failures_form_of(how.form),
        carrier: carrier_of(how.carrier),
    }
}

// A form, by its number.
fn failures_form_of(number: u8) -> FailuresForm
    ensures { result ≡ failures_form_of number }
{
    match number {
        0 => FailuresForm::Text,
        1 => FailuresForm::Harm,
        2 => FailuresForm::Json,
        _ => FailuresForm::JsonLines,
    }
}

// What carries the links, by its number.
fn carrier_of(number: u8) -> Carrier
    ensures { result ≡ carrier_of number }
{
    match number {
        0 => Carrier::Process,
        1 => Carrier::Switch,
        _ => Carrier::Direct,
    }
}
