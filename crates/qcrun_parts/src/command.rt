//! Commands, and the lines that they are read from.
ghost use Rattle.std.specs.Prelude.{[], ◌∷◌, Some, codes};
ghost use Rattle.std.specs.Result.{OkIff};
ghost use Rattle.std.specs.Str.Parse.{digits_value};
ghost use Rattle.qcrun_parts.specs.Commands.{HasGhosts, HasMore, HasNumbers, IsLineOf, IsNumeralInRange, IsOkExactly};

use std::fmt::{self, Display, Formatter, Write};
use std::str::{FromStr, from_utf8};

/// What a line asks for.
#[derive(Debug, Clone, Copy, PartialEq, Eq)]
pub enum Command {
    /// `cache ITEMS WEIGHT`: a new cache, in the place of the one that stood.
    Cache(usize, u64),
    /// `cache ITEMS WEIGHT HOT GHOST`: the same, with these shares of hot items and of ghosts, in
    /// parts per million.
    CacheWithShares(usize, u64, u32, u32),
    /// `cache ITEMS WEIGHT HOT GHOST MARK`: the same, with this greatest mark of an item.
    CacheWithMark(usize, u64, u32, u32, u8),
    /// `insert KEY VALUE`
    Insert(u64, u64),
    /// `replace KEY VALUE`
    Replace(u64, u64),
    /// `soft KEY VALUE`: a soft replace.
    Soft(u64, u64),
    /// `get KEY`
    Get(u64),
    /// `peek KEY`
    Peek(u64),
    /// `remove KEY`
    Remove(u64),
    /// `removeif KEY VALUE`: removes the item under the key where it has this value.
    RemoveIf(u64, u64),
    /// `set KEY VALUE`: writes the value through a reference that counts as a look-up.
    Set(u64, u64),
    /// `poke KEY VALUE`: writes the value through a reference that does not.
    Poke(u64, u64),
    /// `load KEY VALUE`: looks the key up, or loads this value for it.
    Load(u64, u64),
    /// `fail KEY`: looks the key up, or begins to load it and fails.
    Fail(u64),
    /// `guard KEY VALUE`: looks the key up, or takes a guard for it and fills it with this value.
    Guard(u64, u64),
    /// `drop KEY`: looks the key up, or takes a guard for it and drops the guard.
    Drop(u64),
    /// `stats KEY`: how often the item was read.
    Stats(u64),
    /// `clear`
    Clear,
    /// `capacity WEIGHT`
    Capacity(u64),
    /// `hits`: how many look-ups found an item, and how many found none.
    Hits,
    /// `show`: what the cache holds, the rings from the head, the ghosts from the oldest and what
    /// weighs nothing by key.
    Show,
}

/// A line that is no command.
#[derive(Debug, Clone, Copy, PartialEq, Eq)]
pub struct NotACommand;

impl Display for NotACommand {
    ghost output = { λ _. Some (codes "not a command") };

    fn fmt<W: Write>(&self, f: &mut Formatter<W>) -> fmt::Result {
        f.write_str("not a command")
    }
}

impl std::error::Error for NotACommand {}

/// The most digits that a number has.
const MOST_DIGITS: usize = 20;

/// The greatest share that is read.
const MOST_SHARE: u64 = 4294967295;

/// The greatest mark that is read.
const MOST_MARK: u64 = 255;

/// The number that a word writes: one to twenty digits, of at most the greatest `u64`.
pub(crate) fn number(word: &str) -> Result<u64, NotACommand>
    ensures { OkIff result (IsNumeralInRange word.now) (digits_value 10 word.now) }
{
    if word.len() > MOST_DIGITS || word.starts_with('+') {
        return Err(NotACommand);
    }
    match word.parse::<u64>() {
        Ok(number) => Ok(number),
        Err(_) => Err(NotACommand),
    }
}

/// The command of this name that has no number.
fn alone(name: &str) -> Result<Command, NotACommand>
    ensures { IsOkExactly result (HasNumbers name.now []) }
{
    match name {
        "clear" => Ok(Command::Clear),
        "hits" => Ok(Command::Hits),
        "show" => Ok(Command::Show),
        _ => Err(NotACommand),
    }
}

/// The command of this name that has this number.
fn with_number(name: &str, number: u64) -> Result<Command, NotACommand>
    ensures { IsOkExactly result (HasNumbers name.now (number ∷ [])) }
{
    match name {
        "get" => Ok(Command::Get(number)),
        "peek" => Ok(Command::Peek(number)),
        "remove" => Ok(Command::Remove(number)),
        "fail" => Ok(Command::Fail(number)),
        "drop" => Ok(Command::Drop(number)),
        "stats" => Ok(Command::Stats(number)),
        "capacity" => Ok(Command::Capacity(number)),
        _ => Err(NotACommand),
    }
}

/// The command of this name that has these numbers.
fn with_numbers(name: &str, first: u64, second: u64) -> Result<Command, NotACommand>
    ensures { IsOkExactly result (HasNumbers name.now (first ∷ second ∷ [])) }
{
    match name {
        "cache" => Ok(Command::Cache(first as usize, second)),
        "insert" => Ok(Command::Insert(first, second)),
        "replace" => Ok(Command::Replace(first, second)),
        "soft" => Ok(Command::Soft(first, second)),
        "removeif" => Ok(Command::RemoveIf(first, second)),
        "set" => Ok(Command::Set(first, second)),
        "poke" => Ok(Command::Poke(first, second)),
        "load" => Ok(Command::Load(first, second)),
        "guard" => Ok(Command::Guard(first, second)),
        _ => Err(NotACommand),
    }
}

/// The command of this name that has these numbers, the last two of them shares.
fn with_shares(
    name: &str,
    items: u64,
    weight: u64,
    hot: u64,
    ghosts: u64,
) -> Result<Command, NotACommand>
    ensures { IsOkExactly result (HasNumbers name.now (items ∷ weight ∷ hot ∷ ghosts ∷ [])) }
{
    if name != "cache" || hot > MOST_SHARE || ghosts > MOST_SHARE {
        return Err(NotACommand);
    }
    Ok(Command::CacheWithShares(items as usize, weight, hot as u32, ghosts as u32))
}

/// The command of this name that has these numbers, the last three of them shares and a mark.
fn with_mark(
    name: &str,
    items: u64,
    weight: u64,
    hot: u64,
    ghosts: u64,
    mark: u64,
) -> Result<Command, NotACommand>
    ensures { IsOkExactly result
        (HasNumbers name.now (items ∷ weight ∷ hot ∷ ghosts ∷ mark ∷ [])) }
{
    if name != "cache" || hot > MOST_SHARE || ghosts > MOST_SHARE || mark > MOST_MARK {
        return Err(NotACommand);
    }
    Ok(Command::CacheWithMark(
        items as usize,
        weight,
        hot as u32,
        ghosts as u32,
        mark as u8,
    ))
}

/// The command of this name that has these numbers, and behind them those that these words write.
fn with_ghosts(
    name: &str,
    items: u64,
    weight: u64,
    hot: u64,
    words: &str,
) -> Result<Command, NotACommand>
    ensures { IsOkExactly result (HasGhosts name.now items weight hot words.now) }
{
    let Some((ghosts, mark)) = words.split_once(' ') else {
        return with_shares(name, items, weight, hot, number(words)?);
    };
    with_mark(name, items, weight, hot, number(ghosts)?, number(mark)?)
}

/// The command of this name that has this number, and behind it those that these words write.
fn with_more(name: &str, first: u64, words: &str) -> Result<Command, NotACommand>
    ensures { IsOkExactly result (HasMore name.now first words.now) }
{
    let Some((second, shares)) = words.split_once(' ') else {
        return with_numbers(name, first, number(words)?);
    };
    let Some((hot, ghosts)) = shares.split_once(' ') else {
        return Err(NotACommand);
    };
    with_ghosts(name, first, number(second)?, number(hot)?, ghosts)
}

impl FromStr for Command {
    type Err = NotACommand;

    ghost use Rattle.qcrun_parts.specs.Commands.{IsLineOf, IsOkExactly};

    ghost from_str_gives = { λ line answer. IsOkExactly answer (IsLineOf line) };

    fn from_str(line: &str) -> Result<Command, NotACommand> {
        let Some((name, words)) = line.split_once(' ') else {
            return alone(line);
        };
        let Some((first, more)) = words.split_once(' ') else {
            return with_number(name, number(words)?);
        };
        with_more(name, number(first)?, more)
    }
}

/// The command of a line, which is text.
///
/// # Errors
///
/// The line is that of no command.
pub fn command_of(line: &[u8]) -> Result<Command, NotACommand>
    ensures { IsOkExactly result (IsLineOf line.now) }
{
    match from_utf8(line) {
        Ok(text) => text.parse(),
        Err(_) => Err(NotACommand),
    }
}
