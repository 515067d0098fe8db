//! Reads a trace of keys, and shows which share of them a cache of each capacity has when they are
//! asked for: this project's cache, those of six other policies, and the best that there can be.
//!
//! `--help` tells its arguments. It writes a table, or a line chart. At an argument or a line that it
//! does not understand, and where there are no keys, it says so, and ends with status 2; where there
//! is no memory, or where it cannot read or write, with status 1.
#![tactic(auto)]

mod cached;

use cached::{cache_hits, weighed_hits};
use clap::error::ErrorKind as ArgumentError;
use qcsim_parts::{
    Arguments, BadTrace, Form, Hits, Shares, Trace, arc_hits, best_hits, clock_hits, fifo_hits,
    lru_hits, read_arguments, read_trace, s3_fifo_hits, tiny_lfu_hits, write_chart, write_counts,
    write_table,
};
use quick_cache_options::{Options, OptionsBuilder};
use std::alloc::{AllocError, Global};
use std::env;
use std::fs::File;
use std::io::{self, BufReader, BufWriter, ErrorKind, Read, Write};
use std::process::ExitCode;

/// From how many keys on each capacity is told on standard error.
const TOLD_KEYS: usize = 1_000_000;

fn no_memory() -> io::Error {
    io::Error::from(ErrorKind::OutOfMemory)
}

/// The words behind the program's name.
fn words(rt: &HostRuntime) -> io::Result<Vec<String>> {
    let mut words = Vec::new(rt.alloc());
    for word in env::args(rt)?.skip(1) {
        words.push(word)?;
    }
    Ok(words)
}

/// What this project's cache is made with, for a trace and a capacity.
fn options(shares: Shares, trace: &Trace, capacity: u64) -> Option<Options> {
    let items = if trace.is_weighted() {
        trace.keys_within(capacity)
    } else {
        capacity as usize
    };
    let built = OptionsBuilder::new()
        .estimated_items_capacity(items)
        .weight_capacity(capacity)
        .hot_allocation(shares.hot)
        .ghost_allocation(shares.ghosts)
        .mark_cut(shares.mark_cut)
        .build();
    built.ok()
}

/// The hits of this project's cache, at one capacity.
fn own_hits(
    alloc: Global,
    shares: Shares,
    trace: &Trace,
    capacity: u64,
) -> Result<u64, AllocError> {
    let Some(options) = options(shares, trace, capacity) else {
        return Ok(0);
    };
    let hits = if trace.is_weighted() {
        weighed_hits(alloc, trace, options)
    } else {
        cache_hits(alloc, trace.keys(), options)
    };
    match hits {
        Ok(hits) => Ok(hits),
        Err(_) => Err(AllocError),
    }
}

/// The hits of each cache, at one capacity.
fn hits_at(
    alloc: Global,
    shares: Shares,
    trace: &Trace,
    capacity: u64,
) -> Result<Hits, AllocError> {
    Ok(Hits {
        capacity,
        cache: own_hits(alloc, shares, trace, capacity)?,
        lru: lru_hits(alloc, trace, capacity)?,
        fifo: fifo_hits(alloc, trace, capacity)?,
        clock: clock_hits(alloc, trace, capacity)?,
        s3_fifo: s3_fifo_hits(alloc, trace, capacity)?,
        tiny_lfu: tiny_lfu_hits(alloc, trace, capacity)?,
        arc: arc_hits(alloc, trace, capacity)?,
        best: best_hits(alloc, trace, capacity)?,
    })
}

/// Runs the trace through the caches of each capacity. How far it is stands on standard error, where
/// the trace is long.
fn simulate(rt: &HostRuntime, arguments: &Arguments<'_>, trace: &Trace) -> io::Result<Vec<Hits>> {
    let keys = trace.keys().len();
    let mut all = Vec::new(rt.alloc());
    for capacity in arguments.capacities.iter() {
        if keys >= TOLD_KEYS {
            eprintln!(rt; "qcsim: capacity {capacity}: {keys} keys")?;
        }
        match hits_at(rt.alloc(), arguments.shares, trace, *capacity) {
            Ok(hits) => all.push(hits)?,
            Err(_) => return Err(no_memory()),
        }
    }
    Ok(all)
}

/// Writes what came of a trace.
fn show(rt: &HostRuntime, arguments: &Arguments<'_>, trace: &Trace) -> io::Result<ExitCode> {
    let all = simulate(rt, arguments, trace)?;
    let keys = trace.keys().len();
    let mut writer = BufWriter::new(rt.alloc(), io::writer(rt))?;
    match arguments.form {
        Form::Table => write_table(&mut writer, keys, &all)?,
        Form::Counts => write_counts(&mut writer, &all)?,
        Form::Chart => write_chart(&mut writer, arguments.title, keys, &all)?,
    }
    writer.flush()?;
    Ok(ExitCode::SUCCESS)
}

/// Goes on with a trace that was read.
fn take(rt: &HostRuntime, arguments: &Arguments<'_>, trace: &Trace) -> io::Result<ExitCode> {
    if trace.skipped() > 0 {
        eprintln!(rt; "qcsim: {} bad lines were passed over", trace.skipped())?;
    }
    if trace.keys().is_empty() {
        eprintln!(rt; "qcsim: no keys")?;
        return Ok(ExitCode::from(2));
    }
    show(rt, arguments, trace)
}

/// Reads a trace, and goes on with it, or says why it was not read.
fn run_over<R: Read + Drop>(
    rt: &HostRuntime,
    arguments: &Arguments<'_>,
    reader: R,
) -> io::Result<ExitCode> {
    let reader = BufReader::new(rt.alloc(), reader)?;
    match read_trace(rt.alloc(), rt, reader, arguments.reading) {
        Ok(trace) => take(rt, arguments, &trace),
        Err(BadTrace::Memory) => Err(no_memory()),
        Err(BadTrace::Read(error)) => unread(rt, arguments, &error),
        Err(BadTrace::Line(bad)) => {
            eprintln!(rt;
                "qcsim: line {} is bad: {}: `{}`",
                bad.number, bad.flaw, bad.start
            )?;
            Ok(ExitCode::from(2))
        }
    }
}

/// Says why the trace could not be read.
fn unread(rt: &HostRuntime, arguments: &Arguments<'_>, error: &io::Error) -> io::Result<ExitCode> {
    let name = arguments.file.unwrap_or("standard input");
    eprintln!(rt; "qcsim: {name}: {error}")?;
    Ok(ExitCode::FAILURE)
}

/// Opens the trace.
fn run(rt: &HostRuntime, arguments: &Arguments<'_>) -> io::Result<ExitCode> {
    let Some(path) = arguments.file else {
        return run_over(rt, arguments, rt.reader());
    };
    match File::open(rt, path) {
        Ok(file) => run_over(rt, arguments, file),
        Err(error) => unread(rt, arguments, &error),
    }
}

/// Reads the arguments, and does what they ask for.
fn start(rt: &HostRuntime) -> io::Result<ExitCode> {
    let words = words(rt)?;
    match read_arguments(rt.alloc(), &words) {
        Ok(arguments) => run(rt, &arguments),
        Err(error) if error.kind() == ArgumentError::OutOfMemory => Err(no_memory()),
        Err(error) => {
            error.print(rt)?;
            let status = if error.use_stderr() { 2 } else { 0 };
            Ok(ExitCode::from(status))
        }
    }
}

fn main(rt: HostRuntime) -> ExitCode {
    match start(&rt) {
        Ok(status) => status,
        Err(error) => {
            let _ = eprintln!(rt; "qcsim: {error}");
            ExitCode::FAILURE
        }
    }
}
