//! All faults of a text.

ghost use Rattle.std.specs.Prelude.{◌≡◌, ◌≤◌, length, None, IfOk};
ghost use Rattle.toml.specs.Parse.{parse_document};
ghost use Rattle.toml.specs.View.{table_view};
ghost use Rattle.ospf_config.specs.Tables.{HasConfigFault};
ghost use Rattle.ospf_files.specs.AllFaults.{AreAllExplained, AreFaultsExplained, faults_of_tables};
ghost use Rattle.ospf_files.specs.Explained.{AreTablePlaces};

use crate::explained::{Explained, line_places};
use crate::places::table_explained;
use ospf_config::ConfigFault;
use std::alloc::{AllocError, Global};
use toml::Table;

/// A fault of a text, and its places.
#[derive(Debug, Drop)]
pub struct FaultExplained {
    pub fault: ConfigFault,
    /// At least one, in the order in which `explain` gives them.
    pub places: Vec<Explained>,
}

/// All faults of a text, in the order of their numbers, each once and with each of its
/// places. Nothing where the text is accepted; of one that is no TOML that alone,
/// since nothing else can be read.
///
/// `AllocError` where memory runs out.
pub fn explain_all(alloc: Global, text: &str) -> Result<Vec<FaultExplained>, AllocError>
    ensures { IfOk result (λ faults. AreAllExplained text.now faults.items) }
{
    match toml::table_from_str(alloc, text) {
        Ok(table) => table_faults(alloc, &table),
        Err(error) => match error.span() {
            None => Err(AllocError),
            Some(span) => no_toml_at(alloc, text, span.start),
        },
    }
}

// The faults of a table.
fn table_faults(alloc: Global, table: &Table) -> Result<Vec<FaultExplained>, AllocError>
    ensures { IfOk result (λ faults. AreFaultsExplained (HasConfigFault (table_view table.now))
        (AreTablePlaces (table_view table.now)) faults_of_tables faults.items) }
{
    let mut out = Vec::new(alloc);
    let faults = faults_of_tables();
    for fault in &faults {
        let places = table_explained(alloc, table, *fault)?;
        if !places.is_empty() {
            out.push(FaultExplained {
                fault: *fault,
                places,
            })?;
        }
    }
    Ok(out)
}

// The faults that a table can have, in the order of their numbers.
fn faults_of_tables() -> [ConfigFault; 7]
    ensures { result ≡ faults_of_tables }
{
    [
        ConfigFault::Missing,
        ConfigFault::Type,
        ConfigFault::Range,
        ConfigFault::ZeroCost,
        ConfigFault::SamePrefix,
        ConfigFault::DeadNotOverHello,
        ConfigFault::Unknown,
    ]
}

// The one fault of a text that is no TOML, and the line where that is seen.
fn no_toml_at(alloc: Global, text: &str, place: usize) -> Result<Vec<FaultExplained>, AllocError>
    requires { place ≤ length text.now }
    ensures { parse_document text.now ≡ None →
        IfOk result (λ faults. AreAllExplained text.now faults.items) }
{
    let places = line_places(alloc, text, place)?;
    let mut out = Vec::new(alloc);
    out.push(FaultExplained {
        fault: ConfigFault::NotToml,
        places,
    })?;
    Ok(out)
}
