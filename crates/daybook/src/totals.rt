// The totals of days in a list, in the order of a line of the office's program.
ghost use Rattle.std.specs.Prelude.{cond, ◌≡◌, ◌*◌, ◌/◌, ltb, length};
ghost use Rattle.std.proofs.lemmas.List.Edits.{sets};
ghost use Rattle.records.specs.Answers.{totals_as};
ghost use Rattle.daybook.specs.Totals.{seven, totals_in};

use crate::days::{DAY_NUMBERS, seven_at};
use records::{Depth, Totals};

// Writes the totals of day k, as many as a day has numbers, where the list has room for them.
pub fn put_totals(list: &mut [u64], k: usize, totals: Totals)
    ensures { list.new ≡ cond (ltb k (length list.old / 7)) (sets list.old (7 * k) (seven (totals_as totals))) list.old }
{
    if k < list.len() / DAY_NUMBERS {
        let at = DAY_NUMBERS * k;
        list[at..at + DAY_NUMBERS].copy_from_slice(&[
            totals.gross.0,
            totals.intercepted.0,
            totals.evapotranspired.0,
            totals.recharged.0,
            totals.rejected.0,
            totals.gone.0,
            totals.stored.0,
        ]);
    }
}

// The totals of day k; what the list does not have reads as 0.
#[tactic(auto, unfolding(crate::specs::Totals::totals_in))]
pub fn totals_at(list: &[u64], k: usize) -> Totals
    ensures { totals_as result ≡ totals_in list.now k }
{
    let [
        gross,
        intercepted,
        evapotranspired,
        recharged,
        rejected,
        gone,
        stored,
    ] = seven_at(list, k, 0);
    Totals {
        gross: Depth(gross),
        intercepted: Depth(intercepted),
        evapotranspired: Depth(evapotranspired),
        recharged: Depth(recharged),
        rejected: Depth(rejected),
        gone: Depth(gone),
        stored: Depth(stored),
    }
}
