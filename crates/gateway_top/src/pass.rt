//! A pass over a stream: its pieces are cut, judged, and what is said of them is put.

ghost use Rattle.std.specs.Prelude.{◌≡◌, ◌≢◌, ◌++◌, ◌+◌, ◌≤◌, [], false, ℕ, List, length};
ghost use Rattle.std.specs.Prelude.{slice_range, true, Some, None, OnOk, IfOk, OnErr, IsErrOf};
ghost use Rattle.std.specs.Prelude.{IfNone, IfSome};
ghost use Rattle.std.specs.Io.KnownBytes.{Appends, Keeps};
ghost use Rattle.outside.specs.Bytes.{AppendsFront};
ghost use Rattle.outside.specs.Causes.{HasCause, Rose};
ghost use Rattle.frame_grammar.specs.Cut.{Piece, Cut, Good, Bad};
ghost use Rattle.frame_grammar.specs.Framer.{StandsFor};
ghost use Rattle.frame_grammar.specs.Places.{EndsIn, place_after, capped};
ghost use Rattle.frame_grammar.specs.declared.framer.TheConstants.{LEAST_ROOM};
ghost use Rattle.frame_grammar.specs.declared.pieces.Rest.{Rest};
ghost use Rattle.frame_grammar.specs.Held.{fresh, room};
ghost use Rattle.gateway_top.specs.Answer.{refused_by};
ghost use Rattle.gateway_top.specs.Judge.{Judges, JudgesAll, end_said, unfinished};
ghost use Rattle.gateway_top.specs.Pass.{CaughtUp, Advances, Ends};
ghost use Rattle.gateway_top.specs.Task.{has_ended, kind_of, stops, first_of};

use crate::Status;
use crate::finding::{of_client, of_client44, of_venue};
use crate::line::{append_frame, append_garbled, append_inside};
use crate::task::{Task, first_of};
use frame_grammar::{Framer, Garble, Next, Rest, Span};
use outside::{Failed, Sink};
use report_translate::ReportTranslator;
use request_translate::Translator;
use std::alloc::{AllocError, Global};
use translate_fix44::{Translator44, Way};
use translation::TranslateError;

/// Why a run stops before the end of its input.
#[derive(Clone, Copy)]
pub(crate) enum Stop {
    OutputFault,
    NoMemory,
}

/// A task, and how far it has come in its stream.
#[derive(Drop)]
pub(crate) struct Pass {
    pub(crate) task: Task,
    pub(crate) framer: Framer,
    alloc: Global,
    requests: Translator,
    reports: ReportTranslator,
    fix44: Translator44,
    /// Where the first piece that was refused begins.
    pub(crate) refused: Option<u64>,
    /// What is said of the pieces of one read.
    pub(crate) text: Vec<u8>,
}

impl Pass {
    /// A pass of which nothing has come.
    pub(crate) fn new(alloc: Global, task: Task) -> Result<Pass, AllocError>
        ensures task { IfOk result (λ pass. pass.task ≡ task) }
        ensures framer { IfOk result (λ pass. pass.framer ≡ fresh (kind_of task)) }
        ensures stands { IfOk result (λ pass. StandsFor pass.framer [] []) }
        ensures refused { IfOk result (λ pass. pass.refused ≡ None) }
    {
        Ok(Pass {
            task,
            framer: Framer::new(alloc, task.kind())?,
            alloc,
            requests: Translator::new(alloc),
            reports: ReportTranslator::new(alloc),
            fix44: Translator44::new(alloc),
            refused: None,
            text: Vec::new(alloc),
        })
    }

    // Writes what the task says of a frame, and answers the place of that where it is refused.
    fn frame(&mut self, at: u64, len: u32, body: Span) -> Result<Option<u64>, AllocError>
        requires { body.start + body.len ≤ length self.old.framer.read }
        ensures said { IfOk result (λ refused. (before : List Piece) (bytes : List ℕ) →
            at ≡ place_after before → len ≡ length bytes →
            let body = slice_range self.old.framer.read body.start (body.start + body.len) in
            (said : List ℕ) × (self.new.text.items ≡ self.old.text.items ++ said) ×
            Judges self.old.task before (Good body bytes) refused said) }
        ensures task { self.new.task ≡ self.old.task }
        ensures framer { self.new.framer ≡ self.old.framer }
        ensures refused { self.new.refused ≡ self.old.refused }
    {
        let body = self.framer.part(body);
        let finding = match self.task {
            Task::TranslateUp => {
                return refused_by(at, self.requests.translate(body, &mut self.text));
            }
            Task::TranslateDown => {
                return refused_by(at, self.reports.translate(body, &mut self.text));
            }
            Task::TranslateUp44 => {
                return refused_by(at, self.fix44.translate(Way::Up, body, &mut self.text));
            }
            Task::TranslateDown44 => {
                return refused_by(at, self.fix44.translate(Way::Down, body, &mut self.text));
            }
            Task::CheckClient44 => {
                let finding = of_client44(self.alloc, &mut self.fix44, body)?;
                append_frame(at, u64::from(len), body, finding, &mut self.text)?;
                return Ok(finding.refusal_at(at));
            }
            Task::CheckClient => of_client(self.alloc, &self.requests, body)?,
            Task::CheckVenue => of_venue(self.alloc, &self.reports, body)?,
        };
        append_frame(at, u64::from(len), body, finding, &mut self.text)?;
        Ok(finding.refusal_at(at))
    }

    // Writes what the task says of a garbled piece, which is refused.
    fn garbled(&mut self, at: u64, len: u64, cause: Garble) -> Result<(), AllocError>
        ensures said { OnOk result ((before : List Piece) (bytes : List ℕ) →
            at ≡ place_after before → len ≡ capped (length bytes) →
            (said : List ℕ) × (self.new.text.items ≡ self.old.text.items ++ said) ×
            Judges self.old.task before (Bad cause bytes) (Some at) said) }
        ensures task { self.new.task ≡ self.old.task }
        ensures framer { self.new.framer ≡ self.old.framer }
        ensures refused { self.new.refused ≡ self.old.refused }
    {
        match self.task {
            Task::CheckClient | Task::CheckVenue | Task::CheckClient44 => {
                append_garbled(at, len, cause, &mut self.text)
            }
            _ => Ok(()),
        }
    }

    // Judges each piece that has come whole, up to the one at which the task ends.
    fn catch_up(&mut self) -> Result<(), AllocError>
        ensures judged { OnOk result ((stream : List ℕ) (answered : List Piece) (before : List ℕ) →
            StandsFor self.old.framer stream answered →
            has_ended self.old.task self.old.refused ≡ false →
            JudgesAll self.old.task [] answered self.old.refused before →
            CaughtUp self.old.task self.new.framer stream answered self.new.refused before
            self.old.text.items self.new.text.items) }
        ensures task { self.new.task ≡ self.old.task }
        ensures kind { self.new.framer.kind ≡ self.old.framer.kind }
        ensures room { OnOk result (has_ended self.old.task self.new.refused ≡ false
            → LEAST_ROOM ≤ room self.new.framer) }
    {
        while !self.task.has_ended(self.refused) {
            match self.framer.next() {
                Next::More => return Ok(()),
                Next::Frame { at, len, body } => {
                    let now = self.frame(at, len, body)?;
                    self.refused = first_of(self.refused, now);
                }
                Next::Garbled { at, len, cause } => {
                    self.garbled(at, len, cause)?;
                    self.refused = first_of(self.refused, Some(at));
                }
            }
        }
        Ok(())
    }

    /// Feeds the next bytes of the stream, judges each piece that has come whole, and puts what is
    /// said of them.
    pub(crate) fn take<O: Sink>(&mut self, bytes: &[u8], out: &mut O) -> Result<(), Stop>
        requires { length bytes.now ≤ room self.old.framer }
        ensures judged { OnOk result (Advances self.old.task self.old.framer self.new.framer
            self.old.refused self.new.refused bytes.now self.new.text.items) }
        ensures put { OnOk result
            (Appends (O.bytes out.old) (O.bytes out.new) self.new.text.items) }
        ensures fault { IsErrOf result Stop.OutputFault
            → Advances self.old.task self.old.framer self.new.framer
            self.old.refused self.new.refused bytes.now self.new.text.items }
        ensures fault_put { IsErrOf result Stop.OutputFault →
            AppendsFront (O.bytes out.old) (O.bytes out.new) self.new.text.items }
        ensures fault_cause { IsErrOf result Stop.OutputFault
            → Rose (O.faults out.old) (O.faults out.new) }
        ensures memory { IsErrOf result Stop.NoMemory → Keeps (O.bytes out.old) (O.bytes out.new) }
        ensures later { O.faults out.old ≤ O.faults out.new }
        ensures still { OnOk result (O.faults out.new ≡ O.faults out.old) }
        ensures memory_still { IsErrOf result Stop.NoMemory → O.faults out.new ≡ O.faults out.old }
        ensures task { self.new.task ≡ self.old.task }
        ensures kind { self.new.framer.kind ≡ self.old.framer.kind }
        ensures still_room { OnOk result (has_ended self.old.task self.new.refused ≡ false
            → LEAST_ROOM ≤ room self.new.framer) }
    {
        self.framer.feed(bytes);
        self.text.clear();
        if self.catch_up().is_err() {
            return Err(Stop::NoMemory);
        }
        match put_text(out, &self.text) {
            Ok(()) => Ok(()),
            Err(_) => Err(Stop::OutputFault),
        }
    }

    /// Where the piece begins at which the task has ended, if it has.
    pub(crate) fn ended_at(&self) -> Option<u64>
        ensures none { IfNone result (has_ended self.now.task self.now.refused ≡ false) }
        ensures some { IfSome result (λ at. (self.now.refused ≡ Some at)
            × (stops self.now.task ≡ true)) }
    {
        self.task.ended_at(self.refused)
    }

    /// Puts what the task says of the end of the input, and answers how the run ended.
    pub(crate) fn end<O: Sink>(&mut self, out: &mut O) -> Status
        ensures ends { (stream rest : List ℕ) (answered : List Piece) →
            StandsFor self.old.framer stream answered →
            Cut self.old.framer.kind stream answered rest →
            (end : Rest) × EndsIn end self.old.framer.kind (place_after answered) rest ×
            Ends self.old.task end self.old.refused result (O.bytes out.old) (O.bytes out.new) }
        ensures later { O.faults out.old ≤ O.faults out.new }
        ensures fault { result ≡ Status.OutputFault → Rose (O.faults out.old) (O.faults out.new) }
        ensures still { result ≢ Status.OutputFault → O.faults out.new ≡ O.faults out.old }
    {
        let rest = self.framer.finish();
        self.text.clear();
        if append_end(self.task, rest, &mut self.text).is_err() {
            return Status::NoMemory;
        }
        if put_text(out, &self.text).is_err() {
            return Status::OutputFault;
        }
        match first_of(self.refused, unfinished(rest)) {
            None => Status::Done,
            Some(at) => Status::Refused { at },
        }
    }
}

/// Where a frame that begins here is refused by what its translation answered.
fn refused_by(at: u64, answer: Result<(), TranslateError>) -> Result<Option<u64>, AllocError>
    ensures { result ≡ refused_by at answer }
{
    match answer {
        Ok(()) => Ok(None),
        Err(TranslateError::NoMemory) => Err(AllocError),
        Err(_) => Ok(Some(at)),
    }
}

/// Appends what the task says of the end of the input.
fn append_end(task: Task, rest: Rest, text: &mut Vec<u8>) -> Result<(), AllocError>
    ensures { OnOk result (text.new.items ≡ text.old.items ++ end_said task rest) }
{
    match (task, rest) {
        (Task::TranslateUp | Task::TranslateDown | Task::TranslateUp44 | Task::TranslateDown44, _)
        | (_, Rest::Clean) => Ok(()),
        (_, Rest::Inside { at, len }) => append_inside(at, u64::from(len), text),
        (_, Rest::Garbled { at, len, cause }) => append_garbled(at, len, cause, text),
    }
}

/// Where what is unfinished at the end of the input begins.
fn unfinished(rest: Rest) -> Option<u64>
    ensures { result ≡ unfinished rest }
{
    match rest {
        Rest::Clean => None,
        Rest::Inside { at, .. } | Rest::Garbled { at, .. } => Some(at),
    }
}

/// Puts a text, where it is not empty.
pub(crate) fn put_text<O: Sink>(out: &mut O, text: &[u8]) -> Result<(), Failed>
    ensures ok { OnOk result (Appends (O.bytes out.old) (O.bytes out.new) text.now) }
    ensures err { OnErr result (AppendsFront (O.bytes out.old) (O.bytes out.new) text.now) }
    ensures cause { HasCause (O.faults out.old) (O.faults out.new) result }
{
    if text.is_empty() {
        return Ok(());
    }
    out.put(text)
}
