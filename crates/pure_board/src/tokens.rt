//! The desk of a board, and its tokens.
use crate::course::{Happening, Lawful, Terms};
use pure_core::{Core, Work};

/// The desk on which a core lies.
pub(crate) type CoreDesk<W> = pure_board_lock::Desk<
    Core<W>,
    W,
    Terms,
    Happening<<W as Work>::Goal, <W as Work>::Closed, <W as Work>::Outcome>,
    Lawful<W>,
>;

/// A token at such a desk.
pub(crate) type Token<W> = pure_board_lock::Seat<
    Core<W>,
    W,
    Terms,
    Happening<<W as Work>::Goal, <W as Work>::Closed, <W as Work>::Outcome>,
>;
