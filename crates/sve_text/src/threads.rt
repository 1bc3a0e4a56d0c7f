use crate::edit::Edit;
use crate::files::Files;
use crate::piece::Piece;

fn may_be_shared<T: Send + Sync>(_value: &T) {}

/// Files and edits may go to other threads and be read by several at once. It does nothing.
pub fn may_cross_threads(files: &Files, edit: &Edit, piece: &Piece<'_>) {
    may_be_shared(files);
    may_be_shared(edit);
    may_be_shared(piece);
}
