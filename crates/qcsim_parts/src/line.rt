//! A line of a trace: the keys that it asks for, in each format.

use std::hash::{FoldHasher, Hasher};
use std::{fmt, str};

/// What a line of a trace is.
#[derive(Clone, Copy, PartialEq, Eq)]
pub enum Format {
    /// A key, as a number. With weights, a space and the weight come behind it.
    Keys,
    /// A key, as a text. With weights, its weight comes behind the last space.
    Text,
    /// Blocks one behind another: the first, how many there are, and two numbers that are passed
    /// over.
    Arc,
    /// Columns between commas. The key is the text of one, and its weight may be another.
    Csv {
        /// Which column is the key, the first being 1.
        key: usize,
        /// Which column is the weight.
        weight: Option<usize>,
    },
}

/// The number of a column.
fn column_number(text: &str) -> Option<usize> {
    match text.parse() {
        Ok(number) if number > 0usize => Some(number),
        _ => None,
    }
}

impl Format {
    /// The format of this name: `keys`, `text`, `arc`, or `csv:N` or `csv:N:WEIGHT`, by the numbers
    /// of columns.
    pub fn named(name: &str) -> Option<Format> {
        match name {
            "keys" => return Some(Format::Keys),
            "text" => return Some(Format::Text),
            "arc" => return Some(Format::Arc),
            _ => {}
        }
        let columns = name.strip_prefix("csv:")?;
        let Some((key, weight)) = columns.split_once(':') else {
            let key = column_number(columns)?;
            return Some(Format::Csv { key, weight: None });
        };
        Some(Format::Csv {
            key: column_number(key)?,
            weight: Some(column_number(weight)?),
        })
    }
}

/// The most blocks that a line asks for.
const MOST_BLOCKS: u64 = 1_048_576;

/// What a line asks for: keys one behind another, each of the same weight.
#[derive(Clone, Copy)]
pub struct Asked {
    /// The first key.
    pub first: u64,
    /// How many keys there are.
    pub count: u64,
    /// What each weighs.
    pub weight: u32,
}

/// Why a line was not understood.
#[derive(Clone, Copy, PartialEq, Eq)]
pub enum Flaw {
    /// From this byte on, the first being 1, it is no UTF-8.
    NotUtf8(usize),
    /// It is no number of 64 bits.
    NotNumber,
    /// It is not four numbers, of which the first two name blocks.
    NotBlocks,
    /// It asks for more blocks than a line may.
    TooManyBlocks,
    /// It has no column of this number.
    NoColumn(usize),
    /// It has no weight, or one that is no number of 32 bits.
    NotWeight,
}

impl fmt::Display for Flaw {
    fn fmt<W: fmt::Write>(&self, f: &mut fmt::Formatter<W>) -> fmt::Result {
        match self {
            Flaw::NotUtf8(place) => write!(f, "from byte {place} on it is no UTF-8"),
            Flaw::NotNumber => write!(f, "it is no number from 0 to 18446744073709551615"),
            Flaw::NotBlocks => write!(f, "it is not `start count ignored request`"),
            Flaw::TooManyBlocks => write!(f, "it asks for more than {MOST_BLOCKS} blocks"),
            Flaw::NoColumn(number) => write!(f, "it has no column {number}"),
            Flaw::NotWeight => write!(f, "its weight is no number from 0 to 4294967295"),
        }
    }
}

/// A single key.
fn one(key: u64, weight: u32) -> Asked {
    Asked {
        first: key,
        count: 1,
        weight,
    }
}

fn hash_of(text: &str) -> u64 {
    let mut hasher = FoldHasher::default();
    hasher.write(text.as_bytes());
    hasher.finish()
}

fn read_number(text: &str) -> Result<u64, Flaw> {
    match text.parse() {
        Ok(number) => Ok(number),
        Err(_) => Err(Flaw::NotNumber),
    }
}

fn read_weight(text: &str) -> Result<u32, Flaw> {
    match text.parse() {
        Ok(weight) => Ok(weight),
        Err(_) => Err(Flaw::NotWeight),
    }
}

/// A key, and where there are weights, the weight behind its last space.
fn split_weight(line: &str, weighted: bool) -> Result<(&str, u32), Flaw> {
    if !weighted {
        return Ok((line, 1));
    }
    match line.rsplit_once(' ') {
        Some((key, weight)) => Ok((key, read_weight(weight)?)),
        None => Err(Flaw::NotWeight),
    }
}

/// A word as a number.
fn number_of(word: Option<&str>) -> Option<u64> {
    match word?.parse() {
        Ok(number) => Some(number),
        Err(_) => None,
    }
}

/// The first block of a line and how many there are.
fn blocks(line: &str) -> Option<(u64, u64)> {
    let mut words = line.split_ascii_whitespace();
    let first = number_of(words.next())?;
    let count = number_of(words.next())?;
    number_of(words.next())?;
    number_of(words.next())?;
    first.checked_add(count.saturating_sub(1))?;
    Some((first, count))
}

fn read_blocks(line: &str) -> Result<Asked, Flaw> {
    match blocks(line) {
        Some((_, count)) if count > MOST_BLOCKS => Err(Flaw::TooManyBlocks),
        Some((first, count)) => Ok(Asked {
            first,
            count,
            weight: 1,
        }),
        None => Err(Flaw::NotBlocks),
    }
}

/// The text of the column of this number. A comma between quotes parts no columns.
fn column(line: &str, number: usize) -> Option<&str> {
    let mut start = 0usize;
    let mut at = 1usize;
    let mut is_quoted = false;
    for (index, byte) in line.bytes().enumerate() {
        if byte == b'"' {
            is_quoted = !is_quoted;
        }
        if byte == b',' && !is_quoted {
            if at == number {
                return line.get(start..index);
            }
            at = at.saturating_add(1);
            start = index.saturating_add(1);
        }
    }
    if at == number {
        line.get(start..)
    } else {
        None
    }
}

/// The text of a column, without the quotes round it.
fn read_column(line: &str, number: usize) -> Result<&str, Flaw> {
    let Some(text) = column(line, number) else {
        return Err(Flaw::NoColumn(number));
    };
    let Some(rest) = text.strip_prefix('"') else {
        return Ok(text);
    };
    Ok(rest.strip_suffix('"').unwrap_or(text))
}

fn read_columns(line: &str, key: usize, weight: Option<usize>) -> Result<Asked, Flaw> {
    let key = hash_of(read_column(line, key)?);
    match weight {
        Some(number) => Ok(one(key, read_weight(read_column(line, number)?)?)),
        None => Ok(one(key, 1)),
    }
}

/// What a line asks for. Its end, LF or CR LF, is no part of it.
pub fn read_line(format: Format, weighted: bool, line: &[u8]) -> Result<Asked, Flaw> {
    let text = match str::from_utf8(line) {
        Ok(text) => text,
        Err(error) => return Err(Flaw::NotUtf8(error.valid_up_to().saturating_add(1))),
    };
    let text = text.strip_suffix('\n').unwrap_or(text);
    let text = text.strip_suffix('\r').unwrap_or(text);
    match format {
        Format::Keys => {
            let (key, weight) = split_weight(text, weighted)?;
            Ok(one(read_number(key)?, weight))
        }
        Format::Text => {
            let (key, weight) = split_weight(text, weighted)?;
            Ok(one(hash_of(key), weight))
        }
        Format::Arc => read_blocks(text),
        Format::Csv { key, weight } => read_columns(text, key, weight),
    }
}
