//! A wire of UDP sockets on 127.0.0.1, which takes the place of the links of one router, with ticks
//! of a steady clock; and what is found out about the routers to run, before any socket is made.
//!
//! `prepare` reads the floor and the configurations in files, and returns the plan of what will
//! run, or the first thing that prevents it: an `Obstacle`, which says what is printed about it and
//! with which status the program ends. `specs/UdpWire/Plans` and `specs/UdpWire/Obstacles` define
//! what is refused, and in which order.

mod ending;
mod fault;
mod frame;
mod list;
mod plan;
mod sockets;
mod stop;
mod ticks;
mod wire;

pub use crate::udp::ending::Ending;
pub use crate::udp::fault::{NoSocket, OpenFault, SocketCause};
pub use crate::udp::list::put;
pub use crate::udp::plan::{Plan, prepare};
pub use crate::udp::stop::{Obstacle, Stop, line_about, status_of, tell_obstacle};
pub use crate::udp::wire::UdpWire;
