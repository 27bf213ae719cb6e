//! What the rows before have made: scripts, the bytes of a disk, and the wires after a life.

use crate::disks::{disk, pick};
use crate::lives::{Asked, quiet, shows, tapped};
use crate::outs::outs;
use crate::peers::Peer;
use crate::scripts::{Poll, stream, written};
use crate::texts::SIGNS;
use crate::wire_calls::{clock_text, quiet_text, wire_answer, wire_of};
use gateway_top::Status;
use outside::{Image, MemDisk};
use row_words::{behind, long_number, put, shown, word};
use std::alloc::{AllocError, Global};
use wires::MemWire;

/// What a life left: its disk, the client's wire and the venue's.
#[derive(Drop)]
struct Left {
    end: Status,
    disk: MemDisk,
    client: MemWire,
    venue: MemWire,
}

/// The scripts, the bytes that the next life's disk begins with, what the last life left, and a
/// wire of its own.
#[derive(Drop)]
pub(crate) struct World {
    polls: Vec<Poll>,
    image: Vec<u8>,
    left: Option<Left>,
    wire: Option<MemWire>,
}

// A life over these bytes of a disk.
fn lived(alloc: Global, polls: &[Poll], image: &[u8], words: &str) -> Result<Left, AllocError> {
    let asked = Asked {
        polls,
        words,
        input: behind(words, 6),
    };
    let mut disk = disk(alloc, image, word(words, 3))?;
    let (end, client, venue) = quiet(alloc, &mut disk, &asked)?;
    Ok(Left {
        end,
        disk,
        client,
        venue,
    })
}

// The same with three taps, of which one fails at the call that the last word says, and what they
// counted.
fn watched(
    alloc: Global,
    polls: &[Poll],
    image: &[u8],
    words: &str,
) -> Result<(Left, String), AllocError> {
    let asked = Asked {
        polls,
        words,
        input: "",
    };
    let call = long_number(word(words, 6)).unwrap_or(0);
    let mut disk = disk(alloc, image, word(words, 3))?;
    let (lived, words) = tapped(alloc, &mut disk, &asked, call)?;
    let (end, client, venue) = lived;
    let left = Left {
        end,
        disk,
        client,
        venue,
    };
    Ok((left, words))
}

// Whether these bytes were written on a wire: what was written where not.
fn told(alloc: Global, wire: &MemWire, expected: &[u8]) -> Result<String, AllocError> {
    let written = written(alloc, wire)?;
    if written.as_slice() == expected {
        return format!(in alloc; "yes");
    }
    shown(alloc, &written)
}

// The words of a life of which one call fails.
fn failing_words(alloc: Global, device: &str, call: &str) -> Result<String, AllocError> {
    let (disk, client, venue) = match device {
        "disk" => (call, "-", "-"),
        "client" => ("-", call, "-"),
        _ => ("-", "-", call),
    };
    format!(in alloc; "day-client day-venue 9 {disk} {client} {venue}")
}

/// The words of the life behind it.
const SECOND: &str = "second-client second-venue 8 - - -";

// How a life ended of which a call of this device was to fail. Of a disk it is left open, since it
// may make fewer calls.
fn end_words(alloc: Global, device: &str, end: Status) -> Result<String, AllocError> {
    if device == "disk" {
        return format!(in alloc; "-");
    }
    format!(in alloc; "{end:?}")
}

// How two lives ended, and what the peers took in both.
fn verdict(
    alloc: Global,
    device: &str,
    ends: (Status, Status),
    venue: &Peer,
    client: &Peer,
) -> Result<String, AllocError> {
    let (first, second) = ends;
    let first = end_words(alloc, device, first)?;
    format!(in alloc;
        "{first} {second:?} venue{} client{}",
        venue.taken(),
        client.taken()
    )
}

impl World {
    pub(crate) fn new(alloc: Global) -> World {
        World {
            polls: Vec::new(alloc),
            image: Vec::new(alloc),
            left: None,
            wire: None,
        }
    }

    // Puts a poll behind a script.
    fn put(&mut self, alloc: Global, given: &str) -> Result<(), AllocError> {
        let poll = Poll::new(alloc, word(given, 0), behind(given, 1))?;
        self.polls.push(poll)?;
        Ok(())
    }

    // Keeps what a life left: how it ended.
    fn keep(&mut self, left: Left) -> Status {
        let end = left.end;
        self.left = Some(left);
        end
    }

    // A life over the present bytes, which is kept: how it ended.
    fn live(&mut self, alloc: Global, given: &str) -> Result<Status, AllocError> {
        let left = lived(alloc, &self.polls, &self.image, given)?;
        Ok(self.keep(left))
    }

    // The same in words.
    fn life(&mut self, alloc: Global, given: &str) -> Result<String, AllocError> {
        let end = self.live(alloc, given)?;
        format!(in alloc; "{end:?}")
    }

    // The same in the words of the program.
    fn served(&mut self, alloc: Global, given: &str) -> Result<String, AllocError> {
        let end = self.live(alloc, given)?;
        format!(in alloc; "{end}")
    }

    // The same with taps: what they counted too.
    fn tapped(&mut self, alloc: Global, given: &str) -> Result<String, AllocError> {
        let (left, words) = watched(alloc, &self.polls, &self.image, given)?;
        let end = self.keep(left);
        format!(in alloc; "{end:?}{words}")
    }

    // The next life begins with what a crash leaves of the last one's disk.
    fn crash(&mut self, pick: Image) -> Result<(), AllocError> {
        if let Some(left) = &self.left {
            self.image = left.disk.image(pick)?;
        }
        Ok(())
    }

    // Whether the last life wrote the bytes of a name to a side.
    fn told(&self, alloc: Global, given: &str) -> Result<String, AllocError> {
        let expected = stream(alloc, &self.polls, word(given, 1))?;
        match &self.left {
            Some(left) if word(given, 0) == "client" => told(alloc, &left.client, &expected),
            Some(left) => told(alloc, &left.venue, &expected),
            None => format!(in alloc; "no life"),
        }
    }

    // How many connections the last life had with each side.
    fn connections(&self, alloc: Global) -> Result<String, AllocError> {
        match &self.left {
            Some(left) => {
                let client = left.client.connections().len();
                let venue = left.venue.connections().len();
                format!(in alloc; "{client} {venue}")
            }
            None => format!(in alloc; "no life"),
        }
    }

    // The peers take what the last life wrote.
    fn taken(&self, alloc: Global, client: &mut Peer, venue: &mut Peer) -> Result<(), AllocError> {
        if let Some(left) = &self.left {
            client.take_all(alloc, &left.client)?;
            venue.take_all(alloc, &left.venue)?;
        }
        Ok(())
    }

    // The second of two lives, with what the peers took in the first.
    fn second(
        &mut self,
        alloc: Global,
        client: &mut Peer,
        venue: &mut Peer,
    ) -> Result<Status, AllocError> {
        self.crash(Image::New)?;
        let end = self.live(alloc, SECOND)?;
        self.taken(alloc, client, venue)?;
        self.image.clear();
        Ok(end)
    }

    // The first of two lives, over an empty disk.
    fn first(&mut self, alloc: Global, given: &str) -> Result<Status, AllocError> {
        self.image.clear();
        let words = failing_words(alloc, word(given, 0), word(given, 1))?;
        self.live(alloc, &words)
    }

    // The same between these peers.
    fn between(
        &mut self,
        alloc: Global,
        given: &str,
        client: &mut Peer,
        venue: &mut Peer,
    ) -> Result<String, AllocError> {
        let first = self.first(alloc, given)?;
        self.taken(alloc, client, venue)?;
        let second = self.second(alloc, client, venue)?;
        verdict(alloc, word(given, 0), (first, second), venue, client)
    }

    // A life of which one call fails, and a second life, in which both peers say all again and ask
    // for all.
    fn two_lives(&mut self, alloc: Global, given: &str) -> Result<String, AllocError> {
        let mut client = Peer::new(alloc);
        let mut venue = Peer::new(alloc);
        self.between(alloc, given, &mut client, &mut venue)
    }

    // What is shown of the present bytes.
    fn show(&self, alloc: Global, given: &str) -> Result<String, AllocError> {
        let mut disk = disk(alloc, &self.image, "-")?;
        shows(alloc, &mut disk, given)
    }

    // What the journal of the present bytes gives out to a side.
    fn outs(&self, alloc: Global, given: &str) -> Result<String, AllocError> {
        let mut disk = disk(alloc, &self.image, "-")?;
        outs(alloc, &mut disk, given)
    }

    // The answer to a row of one life.
    fn life_answer(
        &mut self,
        alloc: Global,
        call: &str,
        given: &str,
    ) -> Result<String, AllocError> {
        match call {
            "life" => self.life(alloc, given),
            "serve" => self.served(alloc, given),
            "tapped" => self.tapped(alloc, given),
            "told" => self.told(alloc, given),
            "connections" => self.connections(alloc),
            "show" => self.show(alloc, given),
            "outs" => self.outs(alloc, given),
            _ => self.wire_answer(alloc, call, given),
        }
    }

    // Begins a wire.
    fn begin_wire(&mut self, alloc: Global, given: &str) -> Result<String, AllocError> {
        self.wire = Some(wire_of(alloc, &self.polls, given)?);
        Ok(String::new(alloc))
    }

    // The answer to a row of a wire.
    fn wire_answer(
        &mut self,
        alloc: Global,
        call: &str,
        given: &str,
    ) -> Result<String, AllocError> {
        match (call, &mut self.wire) {
            ("wire", _) => self.begin_wire(alloc, given),
            ("clock", _) => clock_text(alloc, given),
            ("quiet", _) => quiet_text(alloc),
            (_, Some(wire)) => wire_answer(alloc, wire, call, given),
            (_, None) => format!(in alloc; "no wire"),
        }
    }

    // The answer to a row.
    fn text(&mut self, alloc: Global, call: &str, given: &str) -> Result<String, AllocError> {
        match call {
            "poll" => self.put(alloc, given)?,
            "empty" => self.image.clear(),
            "holds" => self.image = stream(alloc, &self.polls, given)?,
            "crash" => self.crash(pick(word(given, 0)))?,
            "fails" => return self.two_lives(alloc, given),
            _ => return self.life_answer(alloc, call, given),
        }
        Ok(String::new(alloc))
    }
}

impl World {
    // The answer to a row.
    pub(crate) fn answer(
        &mut self,
        alloc: Global,
        call: &str,
        given: &str,
    ) -> Result<Vec<u8>, AllocError> {
        let text = self.text(alloc, call, given)?;
        let mut bytes = Vec::new(alloc);
        put(&mut bytes, &SIGNS, &text)?;
        Ok(bytes)
    }
}
