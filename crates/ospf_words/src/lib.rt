//! What the words of the command line ask for.
#![tactic(auto)]

mod arguments;
mod build;
mod commands;
mod help;
mod jobs;
mod words;

pub use jobs::{CheckJob, DiffWords, EditWords, Job, JobFault, RunJob, SimJob};
pub use words::{job, not_text};
