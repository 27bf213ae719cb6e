//! What the edge asks of the system.

use std::net::Net;
use std::rt::Clock;

/// What the edge asks of the system: sockets, the clocks, and memory.
pub trait System: Net + Clock + AllocGlobal {}

impl<R: Net + Clock + AllocGlobal> System for R {}
