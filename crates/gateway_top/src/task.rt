//! What is done to a stream of frames.

ghost use Rattle.std.specs.Prelude.{◌≡◌, false, true, Some, IfNone, IfSome};
ghost use Rattle.gateway_top.specs.Task.{kind_of, stops, has_ended, first_of};

use frame_grammar::Kind;

/// What is done to a stream of frames.
#[derive(Clone, Copy)]
pub enum Task {
    /// `translate up`: the requests of a client, FIX 4.2, are written as the venue takes them.
    TranslateUp,
    /// `translate down`: the reports of a venue, FIX 5.0 SP2, are written as the client takes them.
    TranslateDown,
    /// `check client`: a line is written for each piece of a stream of FIX 4.2.
    CheckClient,
    /// `check venue`: a line is written for each piece of a stream of FIXT 1.1.
    CheckVenue,
    /// `translate up44`: the requests of a client of FIX 4.4 are written as the venue takes them.
    TranslateUp44,
    /// `translate down44`: the reports of a venue are written as a client of FIX 4.4 takes them.
    TranslateDown44,
    /// `check client44`: a line is written for each piece of a stream of FIX 4.4.
    CheckClient44,
}

impl Task {
    /// The kind of the frames that it reads.
    pub(crate) fn kind(self) -> Kind
        ensures { result ≡ kind_of self }
    {
        match self {
            Task::TranslateUp | Task::CheckClient => Kind::Fix42,
            Task::TranslateUp44 | Task::CheckClient44 => Kind::Fix44,
            Task::TranslateDown | Task::TranslateDown44 | Task::CheckVenue => Kind::Fixt11,
        }
    }

    /// Whether it ends at the first piece that it refuses.
    pub(crate) fn stops(self) -> bool
        ensures { result ≡ stops self }
    {
        matches!(
            self,
            Task::TranslateUp | Task::TranslateDown | Task::TranslateUp44 | Task::TranslateDown44
        )
    }

    /// Whether it has ended, where the first piece that it refused begins here.
    pub(crate) fn has_ended(self, refused: Option<u64>) -> bool
        ensures { result ≡ has_ended self refused }
    {
        self.stops() && refused.is_some()
    }

    /// Where the piece begins at which it has ended, if it has.
    pub(crate) fn ended_at(self, refused: Option<u64>) -> Option<u64>
        ensures none { IfNone result (has_ended self refused ≡ false) }
        ensures some { IfSome result (λ at. (refused ≡ Some at) × (stops self ≡ true)) }
    {
        if self.stops() { refused } else { None }
    }
}

/// The first of two places.
pub(crate) fn first_of(first: Option<u64>, second: Option<u64>) -> Option<u64>
    ensures { result ≡ first_of first second }
{
    first.or(second)
}
