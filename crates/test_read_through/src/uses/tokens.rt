//! Tokens that are signed anew before they are too old, and what their user can rely on.
ghost use Rattle.std.specs.Prelude.{◌≡◌, ℕ, ◌+◌, ◌<◌, ◌≤◌, IfOk};
ghost use Rattle.read_through.specs.Loads.{LoadsOkFrom};

use read_through::{ReadThrough, Refusal, Source};
use std::sync::Wait;
use std::time::Clock;

/// A token, which tells its user and the moment of its signature.
#[derive(Clone, Debug, PartialEq, Drop)]
pub struct Token {
    pub user: u64,
    pub signed: u64,
}

/// What a signer gives: the token of the user, signed at the moment.
pub struct Signer;

impl Source<u64, Token> for Signer {
    ghost gives = { λ user moment token. (token.user ≡ user) × (token.signed ≡ moment) };
}

/// A token of the user, which was signed less than a life ago, or is signed now. The signer may
/// fail, and then nothing is stored.
pub fn token_of<R: Wait + Clock, F: Fn(&u64, u64) -> Result<Token, String>>(
    rt: &R,
    tokens: &ReadThrough<u64, Token, F, Signer>,
    user: u64,
    now: u64,
) -> Result<Result<Token, String>, Refusal>
    requires callable { F.IsAlwaysCallable tokens.now.loader }
    requires signs { LoadsOkFrom F.Fn tokens.now.loader ⟦<Signer as Source<u64, Token>>⟧.gives }
    ensures user { IfOk result (λ given. IfOk given (λ token. token.user ≡ user)) }
    ensures young { IfOk result (λ given. IfOk given
        (λ token. now ≤ token.signed + tokens.now.lives)) }
{
    tokens.try_get(rt, &user, now)
}

#[cfg(test)]
mod tests {
    use super::*;
    use read_through::UnitWeighter;
    use test_tools::{expect_eq, expect_ok};

    #[test]
    fn a_token_is_signed_anew_when_it_is_too_old(rt: HostRuntime) {
        let tokens: ReadThrough<u64, Token, _, Signer> = expect_ok!(rt; ReadThrough::with(
            rt.alloc(),
            100,
            100,
            UnitWeighter,
            60,
            |user: &u64, now: u64| -> Result<Token, String> {
                Ok(Token {
                    user: *user,
                    signed: now,
                })
            },
        ));
        for (now, signed) in [(100, 100), (159, 100), (160, 160)] {
            let token = Token { user: 7, signed };
            expect_eq!(rt; token_of(&rt, &tokens, 7, now), Ok(Ok(token)));
        }
    }
}
