//! Queues of tokens: the first is the next to be visited.

pub mod numbers;
pub mod token_queue;

pub use numbers::Numbers;
pub use token_queue::TokenQueue;
