//! The forms of the command line.

ghost use Rattle.std.specs.Prelude.{◌≡◌, ◌≤◌, ◌<◌, ◌^◌, [], ◌∷◌, map, IfSome};
ghost use Rattle.std.specs.String.{string_bytes};
ghost use Rattle.gateway_top.specs.Command.{command_of, is_between, number_in, drill_of};
ghost use Rattle.gateway_top.specs.Command.{IsWithin};

use crate::task::Task;
use itoa::Buffer;

/// The most rounds of a life.
pub const MAX_ROUNDS: u64 = 1_000_000_000;

/// The most that a drill is made from.
pub const MAX_FIRST: u64 = 65_536;

/// The most orders of a drill.
pub const MAX_COUNT: u64 = 10_000;

/// What the words of the command line ask for.
#[derive(Clone, Copy)]
pub enum Command {
    /// `--help`: how the program is called.
    Help,
    /// `--version`: which program this is.
    Version,
    /// What is done to a stream of frames.
    Stream(Task),
    /// `serve ROUNDS`: the gateway lives for so many rounds.
    Serve(u64),
    /// `show`: the entries of the journal as lines.
    Show,
    /// `migrate`: the journal of format 1 as one of format 2.
    Migrate,
    /// `replay`: the lives of a capture.
    Replay,
    /// `drill FIRST COUNT`: a day of so many orders, made from that number.
    Drill { first: u64, count: u32 },
}

/// Whether a word is this number: its digits, without a zero in front, within these bounds.
fn is_between(least: u64, most: u64, number: u64, word: &str) -> bool
    ensures { result ≡ is_between least most number word.now }
{
    word == Buffer::new().format(number) && least <= number && number <= most
}

/// The number of a word, if it is one within these bounds.
fn number_in(least: u64, most: u64, word: &str) -> Option<u64>
    ensures number { result ≡ number_in least most word.now }
    ensures bounds { IfSome result (λ number. (least ≤ number) × (number ≤ most)) }
{
    match word.parse::<u64>() {
        Ok(number) => {
            if is_between(least, most, number, word) {
                Some(number)
            } else {
                None
            }
        }
        Err(_) => None,
    }
}

/// The drill of these two words, if they are its numbers.
fn drill_of(first: &str, count: &str) -> Option<Command>
    ensures drill { result ≡ drill_of first.now count.now }
    ensures within { IfSome result IsWithin }
{
    let first = number_in(0, MAX_FIRST, first)?;
    let count = number_in(1, MAX_COUNT, count)?;
    Some(Command::Drill {
        first,
        count: count as u32,
    })
}

/// The command of one word.
fn of_one(word: &str) -> Option<Command>
    ensures command { result ≡ command_of (word.now ∷ []) }
    ensures within { IfSome result IsWithin }
{
    match word {
        "--help" => Some(Command::Help),
        "--version" => Some(Command::Version),
        "show" => Some(Command::Show),
        "migrate" => Some(Command::Migrate),
        "replay" => Some(Command::Replay),
        _ => None,
    }
}

/// The command of two words.
fn of_two(first: &str, second: &str) -> Option<Command>
    ensures command { result ≡ command_of (first.now ∷ second.now ∷ []) }
    ensures within { IfSome result IsWithin }
{
    match (first, second) {
        ("translate", "up") => Some(Command::Stream(Task::TranslateUp)),
        ("translate", "down") => Some(Command::Stream(Task::TranslateDown)),
        ("check", "client") => Some(Command::Stream(Task::CheckClient)),
        ("check", "venue") => Some(Command::Stream(Task::CheckVenue)),
        ("translate", "up44") => Some(Command::Stream(Task::TranslateUp44)),
        ("translate", "down44") => Some(Command::Stream(Task::TranslateDown44)),
        ("check", "client44") => Some(Command::Stream(Task::CheckClient44)),
        ("serve", rounds) => number_in(1, MAX_ROUNDS, rounds).map(Command::Serve),
        _ => None,
    }
}

/// The command of these words; `None` where they are none of the forms.
pub(crate) fn read_command(words: &[String]) -> Option<Command>
    ensures command { result ≡ command_of (map string_bytes words.now) }
    ensures within { IfSome result IsWithin }
{
    match words {
        [word] => of_one(word),
        [first, second] => of_two(first, second),
        [first, second, third] if first.as_str() == "drill" => drill_of(second, third),
        _ => None,
    }
}
