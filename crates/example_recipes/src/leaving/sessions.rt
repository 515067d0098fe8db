//! A session store: sessions in use are in memory, and those that leave are written back.
ghost use Rattle.std.specs.Prelude.{◌≡◌};

use quick_cache_unsync::{Cache, DefaultHashBuilder, Lifecycle, Refusal, UnitWeighter};
use std::alloc::Global;
use std::collections::BTreeMap;

/// What is kept of a visitor.
#[derive(Debug, Clone, Copy, PartialEq, Eq)]
pub struct Session {
    pub pages: u64,
}

/// The sessions that left in a call, to be written back. A call of a cache of unit weights lets two
/// leave at most: an old session under the key, and one that makes room.
pub type Leaving = [Option<(u64, Session)>; 2];

/// Hands on what leaves.
#[derive(Drop)]
pub struct WriteBack;

impl Lifecycle<u64, Session> for WriteBack {
    type RequestState = Leaving;

    ghost before_evict_gives = { λ _ _ _ value _ left. left ≡ value };

    ghost on_evict_gives = { λ _ _ _ _ _. Unit {0} };

    ghost on_evict_cold_gives = { λ _ _ _ _ _. Unit {0} };

    ghost on_evict_hot_gives = { λ _ _ _ _ _. Unit {0} };

    ghost keeps_fits = { λ _ _ _ _ _ _ _ fits. fits };

    ghost same_fits = { λ _ _ _ _ fits. fits };

    fn is_pinned(&self, _visitor: &u64, _session: &Session) -> bool {
        false
    }

    fn before_evict(&self, _state: &mut Leaving, _visitor: &u64, _session: &mut Session) {}

    fn on_evict(&self, state: &mut Leaving, visitor: u64, session: Session) {
        let free = if state[0].is_none() { 0 } else { 1 };
        state[free] = Some((visitor, session));
    }

    fn on_evict_cold(&self, state: &mut Leaving, visitor: u64, session: Session) {
        self.on_evict(state, visitor, session);
    }

    fn on_evict_hot(&self, state: &mut Leaving, visitor: u64, session: Session) {
        self.on_evict(state, visitor, session);
    }
}

/// Sessions in memory, above those on a disk.
#[derive(Drop)]
pub struct Sessions {
    in_use: Cache<u64, Session, UnitWeighter, DefaultHashBuilder, WriteBack>,
    disk: BTreeMap<u64, Session>,
}

impl Sessions {
    /// A store that keeps so many sessions in memory.
    pub fn new(alloc: Global, in_memory: usize) -> Result<Self, Refusal> {
        Ok(Sessions {
            in_use: Cache::with(
                alloc,
                in_memory,
                in_memory as u64,
                UnitWeighter,
                DefaultHashBuilder::new(),
                WriteBack,
            )?,
            disk: BTreeMap::new(alloc),
        })
    }

    /// The session of a visitor, from memory or from the disk.
    pub fn open(&mut self, visitor: u64) -> Option<Session> {
        if let Some(session) = self.in_use.get(&visitor) {
            return Some(*session);
        }
        self.disk.get(&visitor).copied()
    }

    /// Keeps a session in memory, and writes those back that leave.
    ///
    /// # Errors
    ///
    /// Where there is no memory. A session that left and could not be written is lost then, as it
    /// would be on a disk that is full.
    pub fn keep(&mut self, visitor: u64, session: Session) -> Result<(), Refusal> {
        let mut leaving = Leaving::default();
        self.in_use
            .insert_with_lifecycle(visitor, session, &mut leaving)
            .map_err(|(_, _, refusal)| refusal)?;
        for left in leaving {
            if let Some((visitor, session)) = left {
                if self.disk.insert(visitor, session).is_err() {
                    return Err(Refusal::Memory);
                }
            }
        }
        Ok(())
    }
}

#[cfg(test)]
mod tests {
    use super::*;
    use std::test::Fail;
    use test_tools::expect_eq;

    #[test]
    fn a_session_that_left_is_found_again(rt: HostRuntime) -> Result<(), Fail> {
        let mut sessions = Sessions::new(rt.alloc(), 2)?;
        for visitor in 0..5 {
            sessions.keep(visitor, Session { pages: visitor })?;
        }
        expect_eq!(rt; sessions.in_use.len(), 2);
        for visitor in 0..5 {
            expect_eq!(rt; sessions.open(visitor), Some(Session { pages: visitor }));
        }
        // What was written last is what is found, also if it left once more.
        sessions.keep(1, Session { pages: 70 })?;
        for visitor in 5..9 {
            sessions.keep(visitor, Session { pages: visitor })?;
        }
        expect_eq!(rt; sessions.open(1), Some(Session { pages: 70 }));
        Ok(())
    }
}
