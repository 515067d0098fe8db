//! The cache with one history: calls of one seat, and two threads, each with a seat.

pub mod one_seat;
pub mod two_seats;
