//! The law of conservation. Its function does nothing, and its contract is a theorem about words of
//! `specs/`.
ghost use Rattle.quick_cache_runs.specs.Conservation.{BooksCanBeOpened, RunsConserve, PairsAddUp, ValuesCanBeFound};

use quick_cache_model::Touches;
use std::alloc::Allocator;

/// The residents of each state can be numbered. Over each run, each number that a pair was given is
/// of one resident, or it ended once: by a hot or cold event, by the reply, or by a drop that the
/// call names. And each resident has the value that was last written for its key.
///
/// Lives are told apart by their pair: where an insert writes the very pair that stands there, the
/// book may end either number, since no event and no reply tells these two apart.
pub fn conservation_law<K: Eq + Clone, V: Clone, F, T: Touches, M: Allocator>()
    ensures opens { BooksCanBeOpened K V }
    ensures finds { ValuesCanBeFound K V K.eq }
    ensures conserves { RunsConserve K V F M K.eq K.is_clone V.is_clone T.may_count }
{}

/// A book loses no pair and makes none.
pub fn book_law<K, V>()
    ensures { PairsAddUp K V }
{}
