//! Files with names, and checks of the configurations in them.

ghost use Rattle.std.specs.Prelude.{◌≡◌, ℕ, List, IfOk};
ghost use Rattle.ospf_c.specs.Answered.{IsAnswered};
ghost use Rattle.ospf_c.specs.Files.{AreGivenFiles, IsAreaCheckOf, IsCheckOf, file_data, given_data, telling_by};

use crate::answer::{Answer, answer_with, hand_over};
use ospf_check::{check_area_text, check_text};
use ospf_files::{Failure, NamedFile, Telling};
use std::alloc::{AllocError, Global};

/// A file that a caller names, and what it holds.
#[repr(C)]
#[derive(Clone, Copy)]
pub struct File<'a> {
    /// Its name. What is not UTF-8 in it is printed as U+FFFD.
    pub name: &'a [u8],
    /// What it holds.
    pub text: &'a [u8],
}

/// Checks configurations, each by itself, as `ospfd check FILE..` does (`ospf_check::check_text`).
///
/// `how` is 0 for the verdicts alone, 1 for what to do about the fault of least number as
/// `--explain` prints it, and more for all faults, as `--all` does.
#[unsafe(no_mangle)]
pub extern "C" fn ospf_check(
    alloc: Global,
    files: &[File],
    how: u8,
    room: &mut [u8],
    answer: &mut Answer,
)
    ensures { (text : List ℕ) × (warnings : List ℕ) × (code : ℕ)
        × IsCheckOf (telling_by how) files.now text warnings code
        × IsAnswered text warnings code room.old room.new answer.new }
{
    let mut out = Vec::new(alloc);
    let mut err = Vec::new(alloc);
    match named_files(alloc, files) {
        Ok(files) => {
            let status = check_text(alloc, &files, telling_by(how), &mut out, &mut err);
            answer_with(&out, &err, status.code(), room, answer)
        }
        Err(AllocError) => hand_over(Err(Failure::Memory), room, answer),
    }
}

/// Checks the configurations of one area together, as `ospfd check --area FILE..` does
/// (`ospf_check::check_area_text`): each as `ospf_check`, and then what is wrong between them.
#[unsafe(no_mangle)]
pub extern "C" fn ospf_check_area(
    alloc: Global,
    files: &[File],
    how: u8,
    room: &mut [u8],
    answer: &mut Answer,
)
    ensures { (text : List ℕ) × (warnings : List ℕ) × (code : ℕ)
        × IsAreaCheckOf (telling_by how) files.now text warnings code
        × IsAnswered text warnings code room.old room.new answer.new }
{
    let mut out = Vec::new(alloc);
    let mut err = Vec::new(alloc);
    match named_files(alloc, files) {
        Ok(files) => {
            let status = check_area_text(alloc, &files, telling_by(how), &mut out, &mut err);
            answer_with(&out, &err, status.code(), room, answer)
        }
        Err(AllocError) => hand_over(Err(Failure::Memory), room, answer),
    }
}

// How much is said, by its number.
fn telling_by(how: u8) -> Telling
    ensures { result ≡ telling_by how }
{
    match how {
        0 => Telling::Verdict,
        1 => Telling::Explained,
        _ => Telling::AllExplained,
    }
}

// The files that a caller gives.
pub(crate) fn named_files(alloc: Global, files: &[File]) -> Result<Vec<NamedFile>, AllocError>
    ensures { IfOk result (λ named. AreGivenFiles files.now named.items) }
{
    let mut named = Vec::new(alloc);
    for file in files {
        named.push(named_file(alloc, *file)?)?;
    }
    Ok(named)
}

// A file that a caller gives. What is not UTF-8 in its name is read as U+FFFD.
fn named_file(alloc: Global, file: File) -> Result<NamedFile, AllocError>
    ensures { IfOk result (λ named. file_data named ≡ given_data file.entry) }
{
    let name = String::from_utf8_lossy(alloc, file.name)?;
    let bytes = Vec::from_slice(alloc, file.text)?;
    Ok(NamedFile {
        name,
        bytes: Some(bytes),
    })
}
