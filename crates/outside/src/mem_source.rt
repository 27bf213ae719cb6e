//! A source in memory, which tells all its bytes.

ghost use Rattle.std.specs.Prelude.{◌≡◌, ◌↔◌, ◌==◌, ◌&&◌, min, length, take, drop, Some, IsErr};
ghost use Rattle.std.specs.Prelude.{IfOk};
ghost use Rattle.std.specs.Prelude.{false, nat_lt};
ghost use Rattle.std.specs.Io.{ReadsAtMost};
ghost use Rattle.std.specs.Io.KnownBytes.{ReadConsumes};
ghost use Rattle.outside.specs.Causes.{HasCause, faults_after};
ghost use Rattle.outside.specs.Bytes.{TellsEnd};
ghost use Rattle.outside.specs.Memory.{SourceState, IsListed, called};

use crate::calls::Calls;
use crate::{Failed, Source};
use std::marker::Model;

/// A source of bytes in memory. Calls are numbered from 1, and the listed ones fail.
#[derive(Debug, Drop)]
pub struct MemSource {
    content: Vec<u8>,
    at: usize,
    ended: bool,
    calls: Calls,
}

impl Model for MemSource {
    ghost use Rattle.std.specs.Prelude.{◌≤◌, drop, length};
    ghost use Rattle.outside.specs.Memory.{SourceState};

    ghost Value = { SourceState };

    ghost view = { λ s. record {
      left = drop s.at s.content.items;
      ended = s.ended;
      calls = s.calls;
    } };

    ghost invariant = { λ s. s.at ≤ length s.content.items };
}

impl MemSource {
    /// A source of these bytes, of which the calls with the numbers in `fail` fail.
    pub fn new(content: Vec<u8>, fail: Vec<u64>) -> MemSource
        ensures { result ≡ record {
          left = content.items;
          ended = false;
          calls = record { made = 0; fail = fail.items; faults = 0 };
        } }
    {
        MemSource {
            content,
            at: 0,
            ended: false,
            calls: Calls::new(fail),
        }
    }

    // Hands out what there is room for, and answers how many bytes.
    fn give(&mut self, buf: &mut [u8]) -> usize
        ensures count { result ≡ min (length buf.old) (length self.old.left) }
        ensures bytes { take result buf.new ≡ take result self.old.left }
        ensures left { self.new ≡ record self.old { left = drop result self.old.left } }
    {
        let count = fill(buf, &self.content[self.at..]);
        self.at += count;
        count
    }

    /// Whether a growth was refused: never, since a source does not grow.
    pub fn refused(&self) -> bool
        ensures { result ≡ false }
    {
        false
    }
}

/// Copies as many bytes as there are and as there is room for, and answers how many.
pub fn fill(buf: &mut [u8], rest: &[u8]) -> usize
    ensures count { result ≡ min (length buf.old) (length rest.now) }
    ensures bytes { take result buf.new ≡ take result rest.now }
{
    let count = buf.len().min(rest.len());
    buf[..count].copy_from_slice(&rest[..count]);
    count
}

/// Whether a read of so many bytes into this buffer has told the end.
fn has_ended(count: usize, buf: &[u8]) -> bool
    ensures { result ≡ (count == 0 && nat_lt 0 (length buf.now)) }
{
    count == 0 && !buf.is_empty()
}

impl Source for MemSource {
    ghost left = { λ s. Some s.left };

    ghost ended = { λ s. s.ended };

    ghost faults = { λ s. s.calls.faults };

    fn read(&mut self, buf: &mut [u8]) -> Result<usize, Failed>
        requires { self.old.ended ≡ false }
        ensures bound { ReadsAtMost result buf.new }
        ensures bytes { ReadConsumes (Some self.old.left) (Some self.new.left) result buf.new }
        ensures ended { TellsEnd result buf.new self.new.ended }
        ensures cause { HasCause self.old.calls.faults self.new.calls.faults result }
        ensures count { IfOk result (λ n. n ≡ min (length buf.old) (length self.old.left)) }
        ensures listed { IsErr result ↔ IsListed self.old.calls }
        ensures counted { self.new.calls ≡
            called self.old.calls (faults_after result self.old.calls.faults) }
    {
        self.calls.begin()?;
        let count = self.give(buf);
        self.ended = has_ended(count, buf);
        Ok(count)
    }
}
