//! What a test expects. `expect!`, `expect_eq!` and `expect_ok!` are calls and do not branch, so that each
//! takes less than half of what `assert!`, `assert_eq!` and `?` take to prove.
ghost use Rattle.std.specs.Prelude.{◌≡◌, ◌↔◌, IsTrue, IsOk, IfErr};

use std::fmt::{Debug, Formatter, Write};

/// Two values that were to be equal.
#[derive(Debug, Drop)]
pub struct Unlike<T> {
    pub found: T,
    pub wanted: T,
}

/// Whether the two are equal.
///
/// # Errors
///
/// Both, where they are not.
pub fn equal<T: PartialEq + Drop>(found: T, wanted: T) -> Result<(), Unlike<T>>
    ensures equal { IsOk result ↔ IsTrue (T.eq found wanted) }
    ensures both { IfErr result (λ unlike. unlike ≡ record { found = found; wanted = wanted }) }
{
    if found == wanted {
        return Ok(());
    }
    Err(Unlike { found, wanted })
}

/// Goes on where the condition holds, and stops the test else, with its text.
#[macro_export]
macro_rules! expect {
    ($rt:expr; $so:expr) => {
        std::panic::Expect::expect(($so).then_some(()), &$rt, stringify!($so))
    };
}

/// Goes on where the two are equal, and stops the test else, with both.
#[macro_export]
macro_rules! expect_eq {
    ($rt:expr; $found:expr, $wanted:expr) => {
        std::panic::Expect::expect($crate::equal($found, $wanted), &$rt, "expected")
    };
}

/// What the call gave, where it succeeded; stops the test else, with the error.
#[macro_export]
macro_rules! expect_ok {
    ($rt:expr; $outcome:expr) => {{
        let outcome: Result<_, _> = $outcome;
        std::panic::Expect::expect(outcome, &$rt, "refused")
    }};
}
