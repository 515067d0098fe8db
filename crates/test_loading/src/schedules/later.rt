//! A loader that comes late, and how a future is polled by hand.
use futures::Future;
use futures::task::{Context, Poll};
use futures::test::MockTask;

/// A loader that is polled so often before it gives this, or fails.
#[derive(Drop)]
pub struct Later {
    pub turns: u64,
    pub given: Option<u64>,
}

impl Future for Later {
    type Output = Result<u64, ()>;

    fn poll(&mut self, cx: &mut Context<'_>) -> Poll<Result<u64, ()>> {
        if self.turns > 0 {
            self.turns -= 1;
            return cx.yield_now();
        }
        Poll::Ready(self.given.ok_or(()))
    }
}

/// A task, and whether its future was pending when it was last polled.
#[derive(Drop)]
pub struct Polled {
    pub task: MockTask,
    pub was_pending: bool,
}

impl Polled {
    /// Whether the future was pending, and nobody has woken its task since.
    pub fn is_asleep(&self) -> bool {
        self.was_pending && !self.task.is_woken()
    }
}
