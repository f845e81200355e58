ghost use Rattle.std.specs.Prelude.{◌≡◌};

use crate::hand::Hand;
use std::marker::Model;

/// A seat at a share. It is fresh while it has seen, touched and drawn nothing, as from `share` or `split` until
/// its first touch. A share is closed by a seat whose part is all of it, so a seat that is dropped leaves the
/// share unclosed.
#[derive(Drop)]
pub struct TouchSeat {
    pub(crate) hand: Hand,
    pub(crate) part: u32,
}

impl Model for TouchSeat {
    ghost use Rattle.hash_share.specs.Seats.{Toucher, toucher_of, IsTouchSeat};

    ghost Value = { Toucher };

    ghost view = { toucher_of };

    ghost invariant = { IsTouchSeat };
}

impl TouchSeat {
    /// The seat's part of the share: how many seats it stands for.
    pub fn part(&self) -> u32
        ensures { result ≡ self.now.knows.part }
    {
        self.part
    }
}
