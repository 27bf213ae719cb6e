//! The options, which stand before the words of a command.

ghost use Rattle.std.specs.Prelude.{◌≤◌, length, IfOk};

use edge_system::Addresses;
use std::fmt;
use std::net::SocketAddr;

/// What the command line says besides the words of [`gateway_top::run`].
#[derive(Clone, Copy, Debug)]
pub(crate) struct Options<'a> {
    /// The path of the journal's file; without it the journal is in memory.
    pub(crate) journal: Option<&'a str>,
    /// Where the two peers are; without it nothing comes on either wire.
    pub(crate) addresses: Option<Addresses>,
    /// The words of the command.
    pub(crate) words: &'a [String],
}

impl Options<'_> {
    /// Whether the command is this one, whatever its other words.
    pub(crate) fn is_command(&self, name: &str) -> bool {
        self.words.first().is_some_and(|word| word.as_str() == name)
    }
}

/// Why the options of a command line are refused. Its `Display` is the line, without its LF.
#[derive(Clone, Copy, Debug)]
pub(crate) enum OptionFault<'a> {
    /// This option is given a second time.
    Twice(&'a str),
    /// No value follows this option.
    NoValue(&'a str),
    /// This option has this value, which is no IP address and port.
    NoAddress(&'a str, &'a str),
    /// The first of these is given without the second.
    Alone(&'a str, &'a str),
}

impl fmt::Display for OptionFault<'_> {
    fn fmt<W: fmt::Write>(&self, f: &mut fmt::Formatter<W>) -> fmt::Result {
        match *self {
            OptionFault::Twice(name) => write!(f, "fixgate: {name} is given twice"),
            OptionFault::NoValue(name) => write!(f, "fixgate: {name} has no value"),
            OptionFault::NoAddress(name, value) => {
                write!(f, "fixgate: {name}: {value} is no IP address and port")
            }
            OptionFault::Alone(name, other) => {
                write!(f, "fixgate: {name} is given without {other}")
            }
        }
    }
}

/// The values of the options so far.
#[derive(Clone, Copy, Debug)]
struct Values<'a> {
    journal: Option<&'a str>,
    listen: Option<SocketAddr>,
    connect: Option<SocketAddr>,
}

/// The value of an option that has none yet.
fn once<'a, T>(before: Option<T>, name: &'a str, value: T) -> Result<Option<T>, OptionFault<'a>>
where
    T: Drop,
{
    match before {
        Some(_) => Err(OptionFault::Twice(name)),
        None => Ok(Some(value)),
    }
}

/// An address, an IP address and a port.
fn address<'a>(name: &'a str, value: &'a str) -> Result<SocketAddr, OptionFault<'a>> {
    match value.parse::<SocketAddr>() {
        Ok(address) => Ok(address),
        Err(_) => Err(OptionFault::NoAddress(name, value)),
    }
}

impl<'a> Values<'a> {
    // With the value of an option.
    fn with(mut self, name: &'a str, value: &'a str) -> Result<Values<'a>, OptionFault<'a>> {
        if value.starts_with("--") {
            return Err(OptionFault::NoValue(name));
        }
        if name == "--journal" {
            self.journal = once(self.journal, name, value)?;
        } else if name == "--listen" {
            self.listen = once(self.listen, name, address(name, value)?)?;
        } else {
            self.connect = once(self.connect, name, address(name, value)?)?;
        }
        Ok(self)
    }

    // Both addresses or neither.
    fn addresses(&self) -> Result<Option<Addresses>, OptionFault<'a>> {
        match (self.listen, self.connect) {
            (Some(listen), Some(connect)) => Ok(Some(Addresses { listen, connect })),
            (None, None) => Ok(None),
            (Some(_), None) => Err(OptionFault::Alone("--listen", "--connect")),
            (None, Some(_)) => Err(OptionFault::Alone("--connect", "--listen")),
        }
    }
}

fn is_option(word: &str) -> bool {
    word == "--journal" || word == "--listen" || word == "--connect"
}

// The options at the front of these words, behind those that came before.
fn take<'a>(
    values: Values<'a>,
    words: &'a [String],
) -> Result<(Values<'a>, &'a [String]), OptionFault<'a>> {
    match words {
        [name, value, rest @ ..] if is_option(name.as_str()) => {
            take(values.with(name.as_str(), value.as_str())?, rest)
        }
        [name] if is_option(name.as_str()) => Err(OptionFault::NoValue(name.as_str())),
        _ => Ok((values, words)),
    }
}

/// The options of a command line: `--journal PATH`, `--listen ADDRESS` and `--connect ADDRESS` in
/// any order, each at most once, and the words behind them.
///
/// # Errors
/// Where one is given twice or without its value, an address is no IP address and port, or one
/// address is given without the other.
pub(crate) fn read_options(words: &[String]) -> Result<Options<'_>, OptionFault<'_>> {
    let none = Values {
        journal: None,
        listen: None,
        connect: None,
    };
    let (values, words) = take(none, words)?;
    Ok(Options {
        journal: values.journal,
        addresses: values.addresses()?,
        words,
    })
}
