//! The number of seeds that the mover wins of an ending: looked up, or else found by trying its moves until one wins all.
ghost use Rattle.std.specs.Prelude.{◌≡◌, ◌<◌, Contains};
ghost use Rattle.kalah_rules.specs.{Position.{storeless}, Play.{legal_houses}, HousesStep.{houses_step}, Key.{variant_of}};
ghost use Rattle.kalah_solve.specs.{Table.{EndingTable.{IsEnding}, RowRank.{rank_of_houses}}, Bounds.Won.{won, won_by_step}, Search.{IsOngoing}};

use crate::house_set::HouseSet;
use crate::table::ending_table::EndingTable;
use kalah_rules::{House, Houses, HousesStep};
use std::alloc::Allocator;

impl<A: Allocator + Clone> EndingTable<A> {
    /// Returns how many of the seeds in the houses the mover wins in best play.
    #[cycle(won)]
    #[inline(always)]
    pub(crate) fn won<const VARIANT: u8>(&self, houses: Houses) -> u8
        requires ongoing { IsOngoing VARIANT houses }
        requires ending { IsEnding houses }
        ensures { result ≡ won houses }
    {
        let houses = houses.in_variant::<VARIANT>();
        let rank = self.rank(&houses);
        if let Some(won) = self.look_up(&houses, rank) {
            return won;
        }
        self.won_by_moves::<VARIANT>(houses, rank)
    }

    // Returns how many the mover wins, found by trying the moves, and keeps it.
    #[cycle(won)]
    #[inline(never)]
    fn won_by_moves<const VARIANT: u8>(&self, houses: Houses, rank: u32) -> u8
        requires ongoing { IsOngoing VARIANT houses }
        requires ending { IsEnding houses }
        requires rank { rank ≡ rank_of_houses houses }
        ensures { result ≡ won houses }
    {
        let houses = houses.in_variant::<VARIANT>();
        let won = self.most_won::<VARIANT>(&houses);
        self.keep(&houses, rank, won);
        won
    }

    // Returns how many the mover wins. Tries the moves from the one nearest the store on, until one wins all.
    #[cycle(won)]
    fn most_won<const VARIANT: u8>(&self, houses: &Houses) -> u8
        requires ongoing { IsOngoing VARIANT houses.now }
        requires ending { IsEnding houses.now }
        ensures { result ≡ won houses.now }
    {
        let seeds = houses.seeds();
        let mut untried = HouseSet::filled(houses);
        let mut most = 0u8;
        while let Some(house) = untried.pop_last() {
            most = most.max(self.move_wins::<VARIANT>(houses, house));
            if most >= seeds {
                return most;
            }
        }
        most
    }

    // Returns how many seeds the move of this house wins.
    #[cycle(won)]
    fn move_wins<const VARIANT: u8>(&self, houses: &Houses, house: House) -> u8
        requires legal { Contains (legal_houses (storeless houses.now)) house }
        requires variant { variant_of houses.now ≡ VARIANT }
        requires ending { IsEnding houses.now }
        ensures { result ≡ won_by_step (houses_step houses.now house) }
    {
        match houses.play_with(&self.sowings, house) {
            HousesStep::Over { own, .. } => own,
            HousesStep::Again { gained, next } => gained + self.won::<VARIANT>(next),
            HousesStep::Turn { gained, next } => {
                gained + (next.seeds() - self.won::<VARIANT>(next))
            }
        }
    }
}
