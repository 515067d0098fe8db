//! Why a line cannot be served.
ghost use Rattle.std.specs.Prelude.{Some};
ghost use Rattle.qcrun_parts.specs.Faults.{fault_text};

use crate::command::{command_of, number};
use std::fmt::{self, Display, Formatter, Write};
use std::str::from_utf8;

/// Why a line cannot be served.
#[derive(Debug, Clone, Copy, PartialEq, Eq)]
pub enum Fault<'a> {
    /// It asks for a cache, and none stands.
    NoCache,
    /// It is longer than any line that is served.
    TooLong,
    /// It is no UTF-8.
    NotText,
    /// It ends with a carriage return.
    CarriageReturn,
    /// It begins with this word, which is no command's name.
    Unknown(&'a str),
    /// This word stands for a number, and is none that is read.
    NotNumber(&'a str),
    /// It has more or fewer numbers than its command, which is written so, or greater ones.
    OtherNumbers(&'static str),
}

impl Display for Fault<'_> {
    ghost output = { λ fault. Some (fault_text fault) };

    fn fmt<W: Write>(&self, f: &mut Formatter<W>) -> fmt::Result {
        match self {
            Fault::NoCache => f.write_str("no cache stands"),
            Fault::TooLong => f.write_str("more than 200 bytes"),
            Fault::NotText => f.write_str("it is no UTF-8"),
            Fault::CarriageReturn => f.write_str("it ends with a carriage return"),
            Fault::Unknown(word) => write!(f, "unknown command `{word}`"),
            Fault::NotNumber(word) => {
                write!(f, "`{word}` is no number from 0 to 18446744073709551615")
            }
            Fault::OtherNumbers(form) => write!(f, "it is written `{form}`"),
        }
    }
}

/// Why a line that is not too long could not be served.
pub fn fault_of(line: &[u8]) -> Fault<'_> {
    if command_of(line).is_ok() {
        return Fault::NoCache;
    }
    match from_utf8(line) {
        Ok(text) => fault_of_text(text),
        Err(_) => Fault::NotText,
    }
}

/// Why a text is no command.
fn fault_of_text(text: &str) -> Fault<'_> {
    if text.ends_with('\r') {
        return Fault::CarriageReturn;
    }
    let (name, words) = match text.split_once(' ') {
        Some((name, words)) => (name, words),
        None => (text, ""),
    };
    let Some(form) = form_of(name) else {
        return Fault::Unknown(name);
    };
    if words.is_empty() {
        return Fault::OtherNumbers(form);
    }
    for word in words.split(' ') {
        if number(word).is_err() {
            return Fault::NotNumber(word);
        }
    }
    Fault::OtherNumbers(form)
}

/// How the command of this name is written.
fn form_of(name: &str) -> Option<&'static str> {
    let form = match name {
        "cache" => "cache ITEMS WEIGHT [HOT GHOST [MARK]]",
        "insert" => "insert KEY VALUE",
        "replace" => "replace KEY VALUE",
        "soft" => "soft KEY VALUE",
        "removeif" => "removeif KEY VALUE",
        "set" => "set KEY VALUE",
        "poke" => "poke KEY VALUE",
        "load" => "load KEY VALUE",
        "guard" => "guard KEY VALUE",
        "get" => "get KEY",
        "peek" => "peek KEY",
        "remove" => "remove KEY",
        "fail" => "fail KEY",
        "drop" => "drop KEY",
        "stats" => "stats KEY",
        "capacity" => "capacity WEIGHT",
        "clear" => "clear",
        "hits" => "hits",
        "show" => "show",
        _ => return None,
    };
    Some(form)
}
