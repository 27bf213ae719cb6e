//! Readers and writers of few bytes, which fail, as sources, as sinks, and below what waits for a
//! peer.

ghost use Rattle.std.specs.Prelude.{◌≡◌, false};

use crate::narrow::Narrow;
use edge_logic::Outbox;
use edge_system::{Reading, Writing};
use outside::{Failed, Sink, Source};
use std::alloc::Global;
use std::io;
use std::io::{ErrorKind, Read};
use std::test::Fail;

/// Gives one byte, and then fails.
#[derive(Drop)]
struct Broken {
    calls: u8,
}

impl Read for Broken {
    fn read(&mut self, buf: &mut [u8]) -> io::Result<usize> {
        if self.calls > 0 || buf.is_empty() {
            return Err(io::Error::from(ErrorKind::Other));
        }
        self.calls = 1;
        buf[0] = b'8';
        Ok(1)
    }
}

/// Whether a sink over ten bytes of room takes a piece of nine whole, and of the next one a byte.
fn takes_ten(alloc: Global, full: Option<ErrorKind>) -> bool {
    let mut sink = Writing::new(Narrow::new(alloc, 10, full));
    let whole = sink.put(b"8=FIX.4.2") == Ok(()) && sink.faults == 0;
    let part = sink.put(b"9=5") == Err(Failed) && sink.faults == 1;
    whole && part && sink.inner.taken.as_slice() == b"8=FIX.4.29".as_slice()
}

#[test]
fn a_piece_is_written_whole_or_the_fault_is_counted(rt: HostRuntime) {
    assert!(rt; takes_ten(rt.alloc(), None));
    assert!(rt; takes_ten(rt.alloc(), Some(ErrorKind::Other)));
}

/// Whether a source gives one byte, and its next read fails.
fn gives_and_fails(source: &mut Reading<Broken>) -> bool
    requires { source.old.ended ≡ false }
{
    let mut buf = [0u8; 4];
    let gives = source.read(&mut buf) == Ok(1) && buf[0] == b'8' && source.faults == 0;
    gives && source.read(&mut buf) == Err(Failed) && source.faults == 1 && !source.ended
}

#[test]
fn a_read_gives_what_came_or_counts_the_fault(rt: HostRuntime) {
    let mut source = Reading::new(Broken { calls: 0 });
    assert!(rt; gives_and_fails(&mut source));
}

/// Whether a source gives one byte, and then its end.
fn gives_and_ends(source: &mut Reading<&[u8]>) -> bool
    requires { source.old.ended ≡ false }
{
    let mut buf = [0u8; 4];
    let gives = source.read(&mut buf) == Ok(1) && !source.ended;
    gives && source.read(&mut buf) == Ok(0) && source.ended
}

#[test]
fn a_read_tells_the_end(rt: HostRuntime) {
    let mut source = Reading::new(b"8".as_slice());
    assert!(rt; gives_and_ends(&mut source));
}

/// Whether two pieces wait in order where five bytes of them are taken.
fn waits(outbox: &mut Outbox, out: &mut Narrow) -> bool {
    let sent = outbox.send(out, b"8=FIX.4.2", 10).is_ok() && outbox.send(out, b"9=5", 11).is_ok();
    sent && out.taken.as_slice() == b"8=FIX".as_slice() && !outbox.took_nothing(5_010)
}

/// Whether the rest goes out with four flushes once there is room.
fn goes_out(outbox: &mut Outbox, out: &mut Narrow) -> bool {
    out.room = 100;
    for _ in 0..4u8 {
        if outbox.flush(out, 6_000).is_err() {
            return false;
        }
    }
    outbox.is_empty() && out.taken.as_slice() == b"8=FIX.4.29=5".as_slice()
}

/// Whether it does both, and says for how long nothing was taken.
fn waits_and_goes_out(outbox: &mut Outbox, out: &mut Narrow) -> bool {
    let waits = waits(outbox, out) && outbox.took_nothing(5_011);
    waits && goes_out(outbox, out) && !outbox.took_nothing(20_000)
}

#[test]
fn what_is_not_taken_waits_in_order(rt: HostRuntime) {
    let mut out = Narrow::new(rt.alloc(), 5, Some(ErrorKind::WouldBlock));
    let mut outbox = Outbox::new(rt.alloc());
    assert!(rt; waits_and_goes_out(&mut outbox, &mut out));
}
