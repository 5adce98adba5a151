//! How a run of the program ended, with the board on which it checked.
ghost use Rattle.std.specs.Prelude.{◌≡◌, None};

use crate::status::Status;
use pure_board::Closed;
use pure_check_work::Checking;

/// How a call of `pure` ended: its status, and, where the job hands one out and its text was written or a part of it, the
/// closed board on which the session was checked.
#[derive(Drop)]
pub struct Ended {
    pub status: Status,
    pub run: Option<Closed<Checking>>,
}

impl Ended {
    /// An end without a board.
    pub(crate) fn early(status: Status) -> Ended
        ensures status { result.status ≡ status }
        ensures run { result.run ≡ None }
    {
        Ended { status, run: None }
    }

    /// An end with the board that is handed out, if one is.
    pub(crate) fn with(status: Status, run: Option<Closed<Checking>>) -> Ended
        ensures status { result.status ≡ status }
        ensures run { result.run ≡ run }
    {
        Ended { status, run }
    }
}
