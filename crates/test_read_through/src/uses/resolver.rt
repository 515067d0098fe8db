//! A resolver: answers live as long as their zone says, and those that there is no such name
//! shorter. While the server is away the old ones are given.
use read_through::{AnySource, ByAnswer, Given, ReadThrough, Refusal, WithLife};
use std::alloc::Global;
use std::sync::Wait;
use std::time::Clock;

/// A name, its address, and for how many seconds that may be told.
const ZONE: &str = "alpha 10.0.0.1 300\nbeta 10.0.0.2 20";

/// For how many seconds it may be told that there is no such name.
const NO_SUCH_NAME: u64 = 5;

/// An address, or that there is none, with its life.
pub type Answer = WithLife<Option<&'static str>>;

/// The server does not answer.
#[derive(Debug, Clone, Copy, PartialEq)]
pub struct Away;

/// What the server says at a second; it is away for a while.
fn ask(name: &&'static str, second: u64) -> Result<Answer, Away> {
    if second >= 100 && second < 400 {
        return Err(Away);
    }
    for line in ZONE.lines() {
        let mut words = line.split(' ');
        let (found, address, life) = (words.next(), words.next(), words.next());
        if found == Some(*name) {
            if let Some(Ok(life)) = life.map(|it| it.parse::<u64>()) {
                return Ok(WithLife {
                    value: address,
                    life,
                });
            }
        }
    }
    Ok(WithLife {
        value: None,
        life: NO_SUCH_NAME,
    })
}

/// What is told of names at these seconds: the address, and whether it is an old one. Nothing is
/// told where the server is away and what it said last is over by more than a minute.
pub fn tell<R: Wait + Clock>(
    rt: &R,
    alloc: Global,
    asked: &[(&'static str, u64)],
    told: &mut Vec<(Option<&'static str>, bool)>,
) -> Result<(), Refusal> {
    // `asked` are names, each with a second; `ask` gives an `Answer` with its life, or `Away`.
    // What is 200 seconds old is asked for anew.
    let answers: ReadThrough<&'static str, Answer, _, AnySource, Global, ByAnswer> =
        ReadThrough::new(alloc, 100, ByAnswer, ask)?.with_grace(60);
    for (name, second) in asked {
        let line = match answers.try_get_or_refresh(rt, name, *second, 200)? {
            Ok(Given::Fresh(answer)) => (answer.value, false),
            Ok(Given::Stale { value, .. }) => (value.value, true),
            Ok(Given::Unasked(value)) => (value.value, true),
            Err(Away) => (None, true),
        };
        let _ = told.push(line);
    }
    Ok(())
}

#[cfg(test)]
mod tests {
    use super::*;
    use test_tools::{expect_eq, expect_ok};

    /// A name and a second, and what is told then.
    const ROWS: [((&str, u64), (Option<&str>, bool)); 9] = [
        (("alpha", 0), (Some("10.0.0.1"), false)),
        (("beta", 90), (Some("10.0.0.2"), false)),
        (("gamma", 95), (None, false)),
        (("gamma", 99), (None, false)),
        // The server is away.
        (("beta", 120), (Some("10.0.0.2"), true)),
        (("alpha", 299), (Some("10.0.0.1"), true)),
        (("alpha", 359), (Some("10.0.0.1"), true)),
        (("alpha", 360), (None, true)),
        // It is back.
        (("alpha", 400), (Some("10.0.0.1"), false)),
    ];

    #[test]
    fn old_answers_are_told_while_the_server_is_away(rt: HostRuntime) {
        let mut asked = Vec::new(rt.alloc());
        let mut told = Vec::new(rt.alloc());
        for (question, _) in ROWS {
            expect_ok!(rt; asked.push(question));
        }
        expect_ok!(rt; tell(&rt, rt.alloc(), &asked, &mut told));
        for (row, line) in ROWS.iter().zip(told.iter()) {
            expect_eq!(rt; *line, row.1);
        }
        expect_eq!(rt; told.len(), ROWS.len());
    }
}
