//! A glass over records in memory.
ghost use Rattle.std.specs.Prelude.{◌≡◌, ◌<◌, All};
ghost use Rattle.live_board.specs.Glasses.{still_records, still_rows};

use crate::board::Board;
use crate::glass::{Glass, Refused};
use crate::record::RecordList;

/// Knows its records from the beginning, and never refuses.
#[derive(Drop)]
pub struct StillGlass {
    rows: u32,
    records: RecordList,
}

impl StillGlass {
    /// The glass of these records, each of an actor below the number.
    pub fn new(actors: u32, records: RecordList) -> StillGlass
        requires below { All (λ r. r.actor < actors) records }
        ensures rows { still_rows result ≡ actors }
        ensures records { still_records result ≡ records }
    {
        StillGlass {
            rows: actors,
            records,
        }
    }
}

impl Glass for StillGlass {
    ghost use Rattle.live_board.specs.Glasses.{SameRecords, still_records, still_rows};

    ghost rows = { still_rows };

    ghost known = { still_records };

    ghost refusals = { λ _. 0 };

    ghost stays = { SameRecords };

    ghost looks = { λ _ _. Unit {0} };

    fn look(&mut self, into: &mut Board) -> Result<(), Refused> {
        into.clear();
        for item in self.records.as_slice() {
            into.enter(*item);
        }
        Ok(())
    }
}
