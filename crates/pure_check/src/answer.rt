//! What a job answers.
use crate::formed::Formed;
use pure_board::Closed;
use pure_check_work::Checking;

/// What a job answers: the text that it has written and whether that is clean, and the closed board that is handed out, if
/// one is.
#[derive(Drop)]
pub(crate) struct Answer {
    pub(crate) formed: Formed,
    pub(crate) run: Option<Closed<Checking>>,
}
