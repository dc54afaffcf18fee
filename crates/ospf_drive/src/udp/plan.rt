//! What is found before any socket is made: the floor, the files, the
//! configurations in them, and their ports.

ghost use Rattle.std.specs.Prelude.{◌≡◌, All, ℤ, IfOk, IfErr, IfSome, IfNone, IsSome, None, Some, length, option_map, slice_get, string_bytes, take};
ghost use Rattle.ospf_files.specs.Listed.{AreConfigs, AreFilesRead};
ghost use Rattle.ospf_drive.specs.UdpWire.Obstacles.{IsReadAs, IsUnplanned, IsUnplannedOfRead};
ghost use Rattle.ospf_config.specs.declared.interface.Interface.{Interface};
ghost use Rattle.ospf_drive.specs.UdpWire.Plans.{HasPorts, HasFloor, IsFirstPortless, IsFloorOf, IsPlanAt};

use crate::udp::list::put;
use crate::udp::stop::{Obstacle, Stop};
use ospf_base::{MAX_SEQUENCE_NUMBER, NO_FLOOR};
use ospf_config::{Config, ConfigFault, Interface};
use ospf_files::{NamedFile, config_in, first_twins, first_unread};
use ospf_script::floor_of;
use std::alloc::{AllocError, Global};

/// The routers that are to run.
#[derive(Drop)]
pub struct Plan {
    /// Of one Router ID each, and with a port at each interface.
    pub configs: Vec<Config>,
    /// The floor of the numbers of their own LSAs, below the greatest number.
    pub floor: i32,
}

/// Finds what is to run: the floor, and the configurations in the files.
///
/// `Stop::Obstacle` with the first thing that keeps them from running: a floor that is none or the
/// greatest number, a file that was not read or holds no configuration, a Router ID of two, or an
/// interface without a port. `Stop::Failure` where memory runs out.
pub fn prepare<'a>(
    alloc: Global,
    floor: &Option<String>,
    files: &'a [NamedFile],
) -> Result<Plan, Stop<'a>>
    ensures plan { IfOk result (IsPlanAt (option_map string_bytes floor.now) files.now) }
    ensures stop { IfErr result (IsUnplanned (option_map string_bytes floor.now) files.now) }
{
    match floor_in(floor) {
        Some(least) if least == MAX_SEQUENCE_NUMBER => {
            Err(Stop::Obstacle(Obstacle::GreatestFloor))
        }
        Some(least) => plan_above(alloc, floor, least, files),
        None => Err(Stop::Obstacle(Obstacle::NoNumber)),
    }
}

// The floor of a text.
fn floor_in(text: &Option<String>) -> Option<i32>
    ensures some { IfSome result (IsFloorOf (option_map string_bytes text.now)) }
    ensures none { IfNone result ((floor : ℤ) → IsFloorOf (option_map string_bytes text.now) floor →
        ⊥) }
{
    match text {
        Some(text) => floor_of(text.as_bytes()),
        None => Some(NO_FLOOR),
    }
}

// The plan of files, where there is a floor.
fn plan_above<'a>(
    alloc: Global,
    floor: &Option<String>,
    least: i32,
    files: &'a [NamedFile],
) -> Result<Plan, Stop<'a>>
    requires { HasFloor (option_map string_bytes floor.now) least }
    ensures plan { IfOk result (IsPlanAt (option_map string_bytes floor.now) files.now) }
    ensures stop { IfErr result (IsUnplanned (option_map string_bytes floor.now) files.now) }
{
    match first_unread(files) {
        Some(file) => Err(Stop::Obstacle(Obstacle::Unread(file))),
        None => plan_in(alloc, floor, least, files),
    }
}

// The plan of the configurations in files that were read.
fn plan_in<'a>(
    alloc: Global,
    floor: &Option<String>,
    least: i32,
    files: &'a [NamedFile],
) -> Result<Plan, Stop<'a>>
    requires floor { HasFloor (option_map string_bytes floor.now) least }
    requires read { AreFilesRead files.now }
    ensures plan { IfOk result (IsPlanAt (option_map string_bytes floor.now) files.now) }
    ensures stop { IfErr result (IsUnplanned (option_map string_bytes floor.now) files.now) }
{
    let configs = read_configs(alloc, files)?;
    plan_of(floor, least, files, configs)
}

// The configurations in files that were read.
fn read_configs<'a>(alloc: Global, files: &'a [NamedFile]) -> Result<Vec<Config>, Stop<'a>>
    ensures configs { IfOk result (λ configs. AreConfigs files.now configs.items) }
    ensures stop { IfErr result (IsUnplannedOfRead files.now) }
{
    let mut configs = Vec::with_capacity(alloc, files.len())?;
    for file in files {
        match read_config(alloc, file)? {
            Ok(config) => put(&mut configs, config)?,
            Err(fault) => return Err(Stop::Obstacle(Obstacle::NoConfig(file, fault))),
        }
    }
    Ok(configs)
}

// The configuration of a file, or its fault.
fn read_config(alloc: Global, file: &NamedFile) -> Result<Result<Config, ConfigFault>, AllocError>
    ensures { IfOk result (IsReadAs file.now) }
{
    match config_in(alloc, file.text()) {
        Ok(config) => Ok(Ok(config)),
        Err(ConfigFault::Memory) => Err(AllocError),
        Err(fault) => Ok(Err(fault)),
    }
}

// The plan of configurations, if they can run together.
fn plan_of<'a>(
    floor: &Option<String>,
    least: i32,
    files: &'a [NamedFile],
    configs: Vec<Config>,
) -> Result<Plan, Stop<'a>>
    requires floor { HasFloor (option_map string_bytes floor.now) least }
    requires read { AreFilesRead files.now }
    requires are { AreConfigs files.now configs.items }
    // A plan where nothing keeps the routers from running, else what does.
    ensures plan { IfOk result (IsPlanAt (option_map string_bytes floor.now) files.now) }
    ensures stop { IfErr result (IsUnplanned (option_map string_bytes floor.now) files.now) }
{
    if let Some(twins) = first_twins(files, &configs) {
        return Err(Stop::Obstacle(Obstacle::SameRouter(twins)));
    }
    match first_portless(files, &configs) {
        Some((file, number)) => Err(Stop::Obstacle(Obstacle::NoPort(file, number))),
        None => Ok(Plan {
            configs,
            floor: least,
        }),
    }
}

// The first file with an interface that has no port, and the number of that interface.
fn first_portless<'a>(files: &'a [NamedFile], configs: &[Config]) -> Option<(&'a NamedFile, usize)>
    requires { length files.now ≡ length configs.now }
    ensures some { IfSome result (λ found.
        IsFirstPortless found.0.now found.1 files.now configs.now) }
    ensures none { IfNone result (All HasPorts configs.now) }
{
    for (place, config) in configs.iter().enumerate() {
        if let Some(number) = portless_in(&config.interfaces) {
            return Some((&files[place], number));
        }
    }
    None
}

// The number of the first interface that has no port.
fn portless_in(interfaces: &[Interface]) -> Option<usize>
    ensures some { IfSome result (λ number. (portless : Interface)
        × (slice_get interfaces.now number ≡ Some portless) × (portless.port ≡ None)) }
    ensures before { IfSome result (λ number.
        All (λ other. IsSome other.port) (take number interfaces.now)) }
    ensures none { IfNone result (All (λ interface. IsSome interface.port) interfaces.now) }
{
    for (number, interface) in interfaces.iter().enumerate() {
        if interface.port.is_none() {
            return Some(number);
        }
    }
    None
}
