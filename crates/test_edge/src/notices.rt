//! The lines for the operator.

use edge_logic::{Ending, Lost, Missed, NextTry, Notice, PeerName, RefusedNth, line};
use std::alloc::Global;
use std::io;
use std::net::{Ipv4Addr, SocketAddr};
use std::test::Fail;

/// 2024-01-02 10:00:00.007 UTC.
const MOMENT: u64 = 1_704_189_600_007;

/// A notice, how many lines before it were lost, and its line.
type Row<'a> = (Notice<'a>, u64, &'static [u8]);

/// Whether this is the line of a notice.
fn is_line(alloc: Global, notice: Notice<'_>, lost: u64, text: &[u8]) -> io::Result<bool> {
    Ok(line(alloc, MOMENT, notice, Lost(lost))?.as_slice() == text)
}

/// The line of the first row whose notice has another.
fn first_other(alloc: Global, rows: &[Row<'_>]) -> io::Result<Option<&'static [u8]>> {
    for (notice, lost, text) in rows {
        if !is_line(alloc, *notice, *lost, text)? {
            return Ok(Some(*text));
        }
    }
    Ok(None)
}

#[test]
fn a_line_has_its_time_and_its_text(rt: HostRuntime) -> Result<(), Fail> {
    let here = SocketAddr::from((Ipv4Addr::LOCALHOST, 9878));
    #[rattlefmt::skip]
    let rows: [Row<'_>; 7] = [
        (Notice::Listening(here), 0, b"20240102-10:00:00.007 listening on 127.0.0.1:9878\n"),
        (Notice::NotListening(here, "in use"), 0,
            b"20240102-10:00:00.007 cannot listen on 127.0.0.1:9878: in use\n"),
        (Notice::Connected(PeerName::Venue, here), 2,
            b"20240102-10:00:00.007 venue 127.0.0.1:9878 connected \
            (2 lines before this were lost)\n"),
        (Notice::Refused(here, RefusedNth(3)), 0,
            b"20240102-10:00:00.007 client 127.0.0.1:9878 refused, \
            since one is connected: number 3\n"),
        (Notice::Ended(PeerName::Client, Ending::ByPeer, NextTry::Never), 0,
            b"20240102-10:00:00.007 client connection ended by the peer\n"),
        (Notice::Ended(PeerName::Venue, Ending::ByFailure("reset"), NextTry::After(30)), 0,
            b"20240102-10:00:00.007 venue connection failed: reset; next try in 30 s\n"),
        (Notice::NotReached(here, Missed { reason: "refused", next: NextTry::AtOnce }), 0,
            b"20240102-10:00:00.007 venue 127.0.0.1:9878 not reached: refused; next try at once\n"),
    ];
    assert_eq!(rt; first_other(rt.alloc(), &rows)?, None);
    Ok(())
}
