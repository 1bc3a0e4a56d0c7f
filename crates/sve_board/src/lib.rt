//! One log that grows under a lock, and what each of up to sixteen clients knows of it outside the lock.
//!
//! A board is a row of atomic words, and no lock. Word 0 is the length of the log; behind it each client has a word,
//! which counts the commits that it has announced. Whoever holds the writer's seat keeps the log itself, and what a
//! client knows goes with its pass: a prefix of the log and the lengths that it looked up. Passes and notes are facts:
//! they carry no list, so no call but `Board::open` takes memory, and no call waits for anybody.
#![tactic(auto)]

mod board;
mod knowledge;
mod seats;
mod steps;
mod threads;

pub use board::Board;
pub use knowledge::Entry;
pub use seats::{BoardNote, Pass, WriterSeat};
pub use threads::may_cross_threads;
