ghost use Rattle.std.specs.Prelude.{◌≡◌};

use crate::rule::Seat;
use std::marker::Model;

/// A seat at a board. Between calls it has no job in hand. A board is closed by a seat whose part is all of it, so a seat
/// that is dropped leaves the board unclosed.
#[derive(Drop)]
pub struct BoardSeat {
    pub(crate) seat: Seat,
    pub(crate) part: u32,
    /// It drew a claim number past the jobs.
    pub(crate) marked: bool,
}

impl Model for BoardSeat {
    ghost use Rattle.work_board.specs.Seats.{Worker, worker_of, IsBoardSeat};

    ghost Value = { Worker };

    ghost view = { worker_of };

    ghost invariant = { IsBoardSeat };
}

impl BoardSeat {
    /// The seat's part of the board: how many seats it stands for.
    pub fn part(&self) -> u32
        ensures { result ≡ self.now.knows.part }
    {
        self.part
    }
}
