//! The arguments of `qcsim`.

use crate::line::Format;
use crate::trace::Reading;
use clap::error::ErrorKind;
use clap::{Arg, ArgAction, ArgMatches, Command, Error};
use std::alloc::{AllocError, Global};

/// How the shares of hits are shown.
#[derive(Clone, Copy, PartialEq, Eq)]
pub enum Form {
    /// A line of percents for each capacity.
    Table,
    /// A line of counts for each capacity.
    Counts,
    /// A line chart, as SVG.
    Chart,
}

/// What this project's cache is made with.
#[derive(Clone, Copy)]
pub struct Shares {
    /// The share of the capacity that hot keys may have, in parts per million.
    pub hot: u32,
    /// The share of the keys that is kept as ghosts, in parts per million.
    pub ghosts: u32,
    /// How many uses of a key count at most.
    pub mark_cut: u8,
}

/// What was asked for.
#[derive(Drop)]
pub struct Arguments<'a> {
    /// The file that the trace is read from; none is standard input.
    pub file: Option<&'a str>,
    /// How it is read.
    pub reading: Reading,
    /// How the cache is made.
    pub shares: Shares,
    /// How the shares of hits are shown.
    pub form: Form,
    /// The title of a chart.
    pub title: &'a str,
    /// The capacities, the least first. None is 0, and there is one at least.
    pub capacities: Vec<u64>,
}

/// An argument that begins with its name.
struct Named {
    name: &'static str,
    /// What its value is called; without one it is there or not.
    value: Option<&'static str>,
    /// Its value where it is not given.
    standard: Option<&'static str>,
    help: &'static str,
}

/// All of them, in the order in which the help shows them.
static NAMED: [Named; 10] = [
    Named {
        name: "format",
        value: Some("FORMAT"),
        standard: Some("keys"),
        help: "A line: keys (a number), text, arc (start count ignored request), csv:N[:WEIGHT] (columns)",
    },
    Named {
        name: "file",
        value: Some("FILE"),
        standard: None,
        help: "The trace; standard input where there is none",
    },
    Named {
        name: "weights",
        value: None,
        standard: None,
        help: "Behind each key stands its weight, and a capacity is a weight",
    },
    Named {
        name: "skip-bad",
        value: None,
        standard: None,
        help: "Pass over lines that are no keys",
    },
    Named {
        name: "hot",
        value: Some("MILLIONTHS"),
        standard: Some("970000"),
        help: "The share of this cache's capacity that hot keys may have",
    },
    Named {
        name: "ghosts",
        value: Some("MILLIONTHS"),
        standard: Some("500000"),
        help: "The share of the keys that this cache keeps as ghosts",
    },
    Named {
        name: "mark-cut",
        value: Some("1..3"),
        standard: Some("2"),
        help: "How many uses of a key this cache counts at most",
    },
    Named {
        name: "counts",
        value: None,
        standard: None,
        help: "Write how many keys are hits in place of percents",
    },
    Named {
        name: "svg",
        value: None,
        standard: None,
        help: "Write a chart in place of a table",
    },
    Named {
        name: "title",
        value: Some("TITLE"),
        standard: Some("Hit ratios"),
        help: "The title of the chart",
    },
];

fn argument<'a>(alloc: Global, named: &Named) -> Arg<'a> {
    let argument = Arg::new(alloc, named.name)
        .long(named.name)
        .help(named.help);
    let Some(value) = named.value else {
        return argument.action(ArgAction::SetTrue);
    };
    let argument = argument.value_name(value);
    match named.standard {
        Some(standard) => argument.default_value(standard),
        None => argument,
    }
}

fn capacity<'a>(alloc: Global) -> Arg<'a> {
    Arg::new(alloc, "capacity")
        .value_name("CAPACITY")
        .required(true)
        .num_args(1..)
        .help("How many keys each cache may hold, or what they may weigh")
}

/// All that may be asked for.
fn command<'a>(alloc: Global) -> Result<Command<'a>, AllocError> {
    let mut command = Command::new(alloc, "qcsim")
        .about("Shows which share of the keys of a trace each of some caches has")
        .version("0.7.0")
        .no_binary_name(true);
    for named in NAMED.iter() {
        command = command.arg(argument(alloc, named))?;
    }
    command.arg(capacity(alloc))
}

/// What was given, as it was written, or its standard.
#[derive(Clone, Copy)]
struct Given<'a> {
    format: &'a str,
    file: Option<&'a str>,
    hot: &'a str,
    ghosts: &'a str,
    mark_cut: &'a str,
    title: &'a str,
    asks_weights: bool,
    skips_bad: bool,
    form: Form,
}

/// What a command line gives.
fn read_given<'a>(matches: &ArgMatches<'a>) -> Given<'a> {
    let form = if matches.get_flag("svg") {
        Form::Chart
    } else if matches.get_flag("counts") {
        Form::Counts
    } else {
        Form::Table
    };
    Given {
        format: matches.get_str("format").unwrap_or(""),
        file: matches.get_str("file"),
        hot: matches.get_str("hot").unwrap_or(""),
        ghosts: matches.get_str("ghosts").unwrap_or(""),
        mark_cut: matches.get_str("mark-cut").unwrap_or(""),
        title: matches.get_str("title").unwrap_or(""),
        asks_weights: matches.get_flag("weights"),
        skips_bad: matches.get_flag("skip-bad"),
        form,
    }
}

/// What is wrong with an argument: its name, what it may be, and the word that is none of that.
#[derive(Clone, Copy)]
struct Wrong<'a> {
    name: &'static str,
    wanted: &'static str,
    word: &'a str,
}

impl Wrong<'_> {
    /// The sentence that tells it.
    fn told(&self, alloc: Global) -> Result<String, AllocError> {
        let Wrong { name, wanted, word } = self;
        format!(in alloc; "{name} is {wanted}, and not `{word}`")
    }
}

/// A number in a range, which is the value of the argument of this name.
fn number<'a>(
    name: &'static str,
    wanted: &'static str,
    word: &'a str,
    least: u32,
    most: u32,
) -> Result<u32, Wrong<'a>> {
    match word.parse() {
        Ok(number) if least <= number && number <= most => Ok(number),
        _ => Err(Wrong { name, wanted, word }),
    }
}

impl<'a> Given<'a> {
    fn shares(&self) -> Result<Shares, Wrong<'a>> {
        let share = "a number from 0 to 1000000";
        let mark_cut = number("--mark-cut", "1, 2 or 3", self.mark_cut, 1, 3)?;
        Ok(Shares {
            hot: number("--hot", share, self.hot, 0, 1_000_000)?,
            ghosts: number("--ghosts", share, self.ghosts, 0, 1_000_000)?,
            mark_cut: u8::try_from(mark_cut).unwrap_or(2),
        })
    }

    /// What is wrong with the format.
    fn wrong_format(&self, wanted: &'static str) -> Wrong<'a> {
        Wrong {
            name: "--format",
            wanted,
            word: self.format,
        }
    }

    /// How the trace is read, where it is known and weights have a meaning.
    fn reading(&self) -> Result<Reading, Wrong<'a>> {
        let Some(format) = Format::named(self.format) else {
            return Err(self.wrong_format("keys, text, arc, csv:N or csv:N:WEIGHT"));
        };
        let weighted = match format {
            Format::Keys | Format::Text => self.asks_weights,
            Format::Csv {
                weight: Some(_),
                ..
            } => true,
            _ if self.asks_weights => {
                return Err(self.wrong_format("keys, text or csv:N:WEIGHT beside --weights"));
            }
            _ => false,
        };
        Ok(Reading {
            format,
            weighted,
            skips_bad: self.skips_bad,
        })
    }
}

/// The capacities, the least first, or the word that is none.
fn capacities_of<'a>(
    alloc: Global,
    words: &[&'a str],
) -> Result<Result<Vec<u64>, Wrong<'a>>, AllocError> {
    let mut capacities = Vec::new(alloc);
    for word in words {
        match word.parse() {
            Ok(capacity) if capacity > 0u64 => capacities.push(capacity)?,
            _ => {
                return Ok(Err(Wrong {
                    name: "CAPACITY",
                    wanted: "a number from 1 to 18446744073709551615",
                    word,
                }));
            }
        }
    }
    capacities.sort()?;
    Ok(Ok(capacities))
}

/// What was asked for, or what is wrong with it.
fn arguments_of<'a>(
    given: Given<'a>,
    capacities: Result<Vec<u64>, Wrong<'a>>,
) -> Result<Arguments<'a>, Wrong<'a>> {
    Ok(Arguments {
        file: given.file,
        reading: given.reading()?,
        shares: given.shares()?,
        form: given.form,
        title: given.title,
        capacities: capacities?,
    })
}

/// Reads the arguments, without the name of the program.
///
/// # Errors
///
/// What is to be written, and the status: the help, or what was not understood.
pub fn read_arguments<'a>(alloc: Global, words: &'a [String]) -> Result<Arguments<'a>, Error> {
    let mut command = command(alloc)?;
    let matches = command.try_get_matches_from_mut(words)?;
    let capacities = capacities_of(alloc, matches.get_strs("capacity").unwrap_or(&[]))?;
    match arguments_of(read_given(&matches), capacities) {
        Ok(arguments) => Ok(arguments),
        Err(wrong) => {
            let told = wrong.told(alloc)?;
            Err(command.error(ErrorKind::InvalidValue, told.as_str())?)
        }
    }
}
