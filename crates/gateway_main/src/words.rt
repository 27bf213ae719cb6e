//! What is wrong with the words of a command that is refused as a usage.

use std::fmt;

/// What is wrong with the words of a command. Its `Display` is the line, without its LF.
#[derive(Clone, Copy, Debug)]
pub(crate) enum WordsFault<'a> {
    /// There are none.
    None,
    /// This word begins as an option, and is none.
    NoOption(&'a str),
    /// This word is no command.
    NoCommand(&'a str),
    /// This command does not stand alone.
    NotAlone(&'a str),
    /// This is not how the command is followed, which is said second.
    Form(&'a str, &'static str),
}

impl fmt::Display for WordsFault<'_> {
    fn fmt<W: fmt::Write>(&self, f: &mut fmt::Formatter<W>) -> fmt::Result {
        match *self {
            WordsFault::None => write!(f, "fixgate: no command is given"),
            WordsFault::NoOption(word) => write!(f, "fixgate: {word} is no option"),
            WordsFault::NoCommand(word) => write!(f, "fixgate: {word} is no command"),
            WordsFault::NotAlone(word) => {
                write!(
                    f,
                    "fixgate: {word} is followed by nothing; options stand before it"
                )
            }
            WordsFault::Form(word, form) => write!(f, "fixgate: {word} is followed by {form}"),
        }
    }
}

/// What is wrong with these words, which are none of the forms of the command line.
pub(crate) fn fault_of(words: &[String]) -> WordsFault<'_> {
    let Some(word) = words.first() else {
        return WordsFault::None;
    };
    let word = word.as_str();
    match word {
        "show" | "migrate" | "replay" | "--help" | "--version" => WordsFault::NotAlone(word),
        "serve" => WordsFault::Form(
            word,
            "ROUNDS alone, from 1 to 1000000000, in digits without a leading zero",
        ),
        "drill" => WordsFault::Form(
            word,
            "FIRST from 0 to 65536 and COUNT from 1 to 10000, in digits without a leading zero",
        ),
        "translate" => WordsFault::Form(word, "up, down, up44 or down44, and nothing more"),
        "check" => WordsFault::Form(word, "client, venue or client44, and nothing more"),
        _ if word.starts_with("--") => WordsFault::NoOption(word),
        _ => WordsFault::NoCommand(word),
    }
}
