//! What the gateway is told once, and why a text does not tell it.

use order_meaning::Names;
use thiserror::Error;

/// How the gateway is set up. It never changes while the gateway runs.
#[derive(Clone, Copy, Debug, PartialEq, Eq)]
pub struct Config {
    /// The CompIDs of both sessions.
    pub names: Names,
    /// HeartBtInt(108) to the venue, in seconds; 0 means no Heartbeat and no TestRequest.
    pub heart: u32,
    /// How far SendingTime(52) may be from the present moment, in seconds.
    pub window: u32,
    /// The minute of the UTC day at which a session day begins; none where no day ends.
    pub reset: Option<u32>,
}

/// What of a configuration is missing or wrong.
#[derive(Clone, Copy, Debug, PartialEq, Eq, Error)]
pub enum ConfigKey {
    /// The text is no TOML document.
    #[error("NotToml")]
    NotToml,
    /// `client.our`, the gateway's name towards the client.
    #[error("ClientOur")]
    ClientOur,
    /// `client.peer`, the client's name.
    #[error("ClientPeer")]
    ClientPeer,
    /// `venue.our`, the gateway's name towards the venue.
    #[error("VenueOur")]
    VenueOur,
    /// `venue.peer`, the venue's name.
    #[error("VenuePeer")]
    VenuePeer,
    /// `venue.heart`, HeartBtInt(108) to the venue.
    #[error("VenueHeart")]
    VenueHeart,
    /// `gate.window`, how far SendingTime(52) may be off.
    #[error("Window")]
    Window,
    /// `gate.reset`, the minute of the UTC day at which a session day begins.
    #[error("Reset")]
    Reset,
    /// A table or a key that the configuration does not have.
    #[error("Unknown")]
    Unknown,
}

/// Why a text was not read as a configuration.
#[derive(Clone, Copy, Debug, PartialEq, Eq, Error)]
pub enum ConfigFault {
    /// The first key that is missing or wrong.
    #[error("configuration {0}")]
    Key(ConfigKey),
    /// Want of memory, which says nothing of the text.
    #[error("out of memory")]
    NoMemory,
}
