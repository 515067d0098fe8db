//! The trace: the keys that are asked for, in turn, and what they weigh.

use crate::line::{Asked, Flaw, Format, read_line};
use std::alloc::{AllocError, Global};
use std::io::{self, BufRead};

/// How many bytes of a bad line are shown.
const SHOWN_BYTES: usize = 40;

/// Keys in turn. It takes 8 bytes a key, and 12 where they have weights, once it is read; while it
/// grows, twice that at most.
#[derive(Drop)]
pub struct Trace {
    keys: Vec<u64>,
    /// The weight of each key, or none where each weighs one.
    weights: Vec<u32>,
    weight: u64,
    skipped: u64,
}

impl Trace {
    /// No keys.
    pub fn new(alloc: Global) -> Trace {
        Trace {
            keys: Vec::new(alloc),
            weights: Vec::new(alloc),
            weight: 0,
            skipped: 0,
        }
    }

    /// The keys in turn.
    pub fn keys(&self) -> &[u64] {
        &self.keys
    }

    /// Whether the keys have weights of their own.
    pub fn is_weighted(&self) -> bool {
        !self.weights.is_empty()
    }

    /// What the key at this place weighs.
    pub fn weight(&self, place: usize) -> u32 {
        self.weights.get(place).copied().unwrap_or(1)
    }

    /// How many bad lines were passed over.
    pub fn skipped(&self) -> u64 {
        self.skipped
    }

    /// About how many keys a cache of this capacity holds, by what they weigh on average.
    pub fn keys_within(&self, capacity: u64) -> usize {
        let count = self.keys.len() as u64;
        let mean = self.weight.checked_div(count).unwrap_or(1);
        let keys = capacity.checked_div(mean).unwrap_or(capacity);
        keys.min(count) as usize
    }

    /// Adds the keys of a line.
    pub fn add(&mut self, asked: Asked, weighted: bool) -> Result<(), AllocError> {
        for more in 0..asked.count {
            self.keys.push(asked.first.wrapping_add(more))?;
            if weighted {
                self.weights.push(asked.weight)?;
            }
            self.weight = self.weight.saturating_add(u64::from(asked.weight));
        }
        Ok(())
    }
}

/// How a trace is read.
#[derive(Clone, Copy)]
pub struct Reading {
    /// What a line is.
    pub format: Format,
    /// Whether each key has a weight.
    pub weighted: bool,
    /// Whether bad lines are passed over.
    pub skips_bad: bool,
}

/// A line that is no key.
#[derive(Drop)]
pub struct BadLine {
    /// Its number, the first being 1.
    pub number: u64,
    /// Its first 40 bytes. What is no UTF-8 stands as U+FFFD.
    pub start: String,
    /// What is wrong with it.
    pub flaw: Flaw,
}

/// Why a trace was not read.
#[derive(Drop)]
pub enum BadTrace {
    /// A line was not understood.
    Line(BadLine),
    /// The reader failed, or there was no memory for a line.
    Read(io::Error),
    /// There was no memory for the keys.
    Memory,
}

fn bad_line(alloc: Global, number: u64, line: &[u8], flaw: Flaw) -> BadTrace {
    let line = line.strip_suffix(b"\n").unwrap_or(line);
    let start = line.get(..SHOWN_BYTES).unwrap_or(line);
    match String::from_utf8_lossy(alloc, start) {
        Ok(start) => BadTrace::Line(BadLine {
            number,
            start,
            flaw,
        }),
        Err(_) => BadTrace::Memory,
    }
}

impl Trace {
    /// Adds what a line asks for, or passes it over.
    fn add_line(&mut self, reading: Reading, line: &[u8]) -> Result<Result<(), Flaw>, AllocError> {
        match read_line(reading.format, reading.weighted, line) {
            Ok(asked) => self.add(asked, reading.weighted)?,
            Err(flaw) if !reading.skips_bad => return Ok(Err(flaw)),
            Err(_) => self.skipped = self.skipped.saturating_add(1),
        }
        Ok(Ok(()))
    }
}

/// Reads all lines. At each million of them it says so on standard error.
pub fn read_trace<R: BufRead + Drop, E: Eprint>(
    alloc: Global,
    rt: &E,
    mut reader: R,
    reading: Reading,
) -> Result<Trace, BadTrace> {
    let mut trace = Trace::new(alloc);
    let mut line = Vec::new(alloc);
    for before in 0..u64::MAX {
        let number = before.saturating_add(1);
        line.clear();
        match reader.read_until(b'\n', &mut line) {
            Ok(0) => break,
            Ok(_) => {}
            Err(error) => return Err(BadTrace::Read(error)),
        }
        match trace.add_line(reading, &line) {
            Ok(Ok(())) => tell(rt, number),
            Ok(Err(flaw)) => return Err(bad_line(alloc, number, &line, flaw)),
            Err(_) => return Err(BadTrace::Memory),
        }
    }
    Ok(trace)
}

/// Says how many lines were read, at each million.
fn tell<E: Eprint>(rt: &E, lines: u64) {
    if lines % 1_000_000 == 0 {
        let _ = eprintln!(rt; "qcsim: {lines} lines");
    }
}
