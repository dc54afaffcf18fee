//! Configurations in files.

ghost use Rattle.std.specs.Prelude.{IfErr, IfOk, option_map};
ghost use Rattle.ospf_files.specs.Listed.{ConfigComes, ConfigsCome};
ghost use Rattle.ospf_sim.specs.Begun.{IsFileCut, IsWorldCut};

use ospf_config::{Config, ConfigFault};
use ospf_files::{FailedStreams, Failure, NamedFile, config_in, tell_refused};
use std::alloc::{AllocError, Global};
use std::io::Write;

// Reads the configurations of files; the first file that holds none is reported with its fault. If
// the report fails, a beginning of it was written.
pub(crate) fn read_configs<E: Write>(
    alloc: Global,
    files: &[NamedFile],
    err: &mut E,
    streams: &mut FailedStreams,
) -> Result<Option<Vec<Config>>, Failure>
    ensures come { IfOk result (λ found.
        ConfigsCome files.now (option_map (λ configs. configs.items) found)
        (E.contents err.old) (E.contents err.new)) }
    ensures cut { IfErr result
        (IsWorldCut files.now streams.new (E.contents err.old) (E.contents err.new)) }
{
    let mut configs = Vec::new(alloc);
    for file in files {
        match read_config(alloc, file, err, streams)? {
            Some(config) => configs.push(config).map_err(AllocError::from)?,
            None => return Ok(None),
        }
    }
    Ok(Some(configs))
}

// Reads the configuration of a file; if the file holds none, its fault is reported.
fn read_config<E: Write>(
    alloc: Global,
    file: &NamedFile,
    err: &mut E,
    streams: &mut FailedStreams,
) -> Result<Option<Config>, Failure>
    ensures comes { IfOk result (λ found.
        ConfigComes file.now found (E.contents err.old) (E.contents err.new)) }
    ensures cut { IfErr result
        (IsFileCut file.now streams.new (E.contents err.old) (E.contents err.new)) }
{
    match config_in(alloc, file.text()) {
        Ok(config) => Ok(Some(config)),
        Err(ConfigFault::Memory) => Err(Failure::Memory),
        Err(fault) => {
            tell_refused(alloc, file, fault, err, streams)?;
            Ok(None)
        }
    }
}
