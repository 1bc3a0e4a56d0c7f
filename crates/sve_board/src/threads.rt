use crate::board::Board;
use crate::seats::{BoardNote, Pass, WriterSeat};

fn may_be_shared<T: Send + Sync>(_value: &T) {}

fn may_be_sent<T: Send>(_value: &T) {}

/// A board may be read by several threads at once; passes, the writer's seat and notes may go from one thread to
/// another. It does nothing.
pub fn may_cross_threads(board: &Board, pass: &Pass, writer: &WriterSeat, note: &BoardNote) {
    may_be_shared(board);
    may_be_sent(pass);
    may_be_sent(writer);
    may_be_sent(note);
}
