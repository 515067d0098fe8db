//! Reads commands for a cache, one a line, and prints their replies. `--help` prints the commands.
#![tactic(auto)]

use qcrun_parts::{HELP, serve};
use std::process::ExitCode;
use std::{env, io};

/// Tells what a word behind the program's name asks for.
fn tell(rt: &HostRuntime, word: &str) -> io::Result<ExitCode> {
    match word {
        "--help" => print!(rt; "{HELP}")?,
        "--version" => println!(rt; "qcrun 0.7.0")?,
        _ => {
            eprintln!(rt; "qcrun: unknown argument `{word}`: it takes --help, --version, or none")?;
            return Ok(ExitCode::from(2));
        }
    }
    Ok(ExitCode::SUCCESS)
}

/// Serves standard input to standard output, and tells standard error why a line is bad.
fn run(rt: &HostRuntime) -> io::Result<ExitCode> {
    if let Some(word) = env::args(rt)?.nth(1) {
        return tell(rt, word.as_str());
    }
    let (mut writer, mut reasons) = (io::writer(rt), rt.stderr());
    Ok(ExitCode::from(serve(rt.alloc(), rt.reader(), &mut writer, &mut reasons)))
}

fn main(rt: HostRuntime) -> ExitCode {
    match run(&rt) {
        Ok(status) => status,
        Err(error) => {
            let _ = eprintln!(rt; "qcrun: {error}");
            ExitCode::FAILURE
        }
    }
}
