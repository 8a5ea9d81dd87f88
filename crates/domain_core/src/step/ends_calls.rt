// The calls that a step makes at the ends of its domain.

ghost use Rattle.std.specs.Prelude.{◌≡◌, ◌≢◌, ◌^◌, ◌<◌, ◌≤◌, ℕ, length, get_or, true, false, None, IsSome, IsNone, IfSome};
ghost use Rattle.cell_core.specs.definitions.Ends.{Through, ValueFits};
ghost use Rattle.domain_core.specs.definitions.step.EndCalls.{end_at, recall_of, offer_of, CanRecall, IsRecalled, RecallsAll, CanOffer, IsOffered, OffersAll};

use crate::step::ends_of::EndOf;
use cell_core::{Ends, Joined};

// Recalls an end, where it stands.
fn recall_one<E: Ends>(ends: &mut E, at: usize, stands: bool) -> Option<Joined>
    requires within { at < E.count ends.old }
    requires room { 1 ≤ (E.end_at ends.old at).room }
    requires stands { stands ≡ true → IsSome (E.end_at ends.old at).offer }
    requires free { stands ≡ false → IsNone (E.end_at ends.old at).offer }
    ensures through { Through E.moved ends.old
        (recall_of stands at (E.end_at ends.old at).side result) ends.new }
    ensures count { E.count ends.new ≡ E.count ends.old }
    ensures others { (q : ℕ) → q < E.count ends.old → q ≢ at →
        E.end_at ends.new q ≡ E.end_at ends.old q }
    ensures recalled { IsRecalled stands result (E.end_at ends.old at) (E.end_at ends.new at) }
{
    if stands { ends.recall(at) } else { None }
}

/// Recalls each end that stands, by rising number.
pub fn recall_all<E: Ends>(
    ends: &mut E,
    list: &[EndOf],
    standing: &[bool],
    answers: &mut Vec<Option<Joined>>,
)
    requires standing { length standing.now ≡ length list.now }
    requires answers { length answers.old.items ≡ length list.now }
    requires count { E.count ends.old ≡ length list.now }
    requires can { (k : ℕ) → k < length list.now →
        CanRecall (end_at list.now k) (get_or standing.now k false) (E.end_at ends.old k) }
    ensures recalls { RecallsAll E.moved E.count E.end_at list.now standing.now answers.new.items
        (length list.now) ends.old ends.new }
    ensures answers { length answers.new.items ≡ length list.now }
{
    for at in 0..list.len() {
        answers[at] = recall_one(ends, at, standing[at]);
    }
}

// Makes an offer at an end, if there is one to make.
fn offer_one<E: Ends>(ends: &mut E, at: usize, ask: Option<i64>, stamp: u64) -> Option<Joined>
    requires within { at < E.count ends.old }
    requires room { 1 ≤ (E.end_at ends.old at).room }
    requires free { IsNone (E.end_at ends.old at).offer }
    requires stamp { stamp < 2 ^ 62 }
    requires value { IfSome ask (ValueFits (E.end_at ends.old at).side (E.end_at ends.old at).kind) }
    ensures through { Through E.moved ends.old
        (offer_of ask at (E.end_at ends.old at).side stamp result) ends.new }
    ensures count { E.count ends.new ≡ E.count ends.old }
    ensures others { (q : ℕ) → q < E.count ends.old → q ≢ at →
        E.end_at ends.new q ≡ E.end_at ends.old q }
    ensures offered { IsOffered ask stamp result (E.end_at ends.old at) (E.end_at ends.new at) }
{
    match ask {
        Some(value) => ends.offer(at, value, stamp),
        None => None,
    }
}

/// Makes the offers that there are to make, by rising number of the end.
pub fn offer_all<E: Ends>(
    ends: &mut E,
    list: &[EndOf],
    asks: &[Option<i64>],
    stamp: u64,
    answers: &mut Vec<Option<Joined>>,
)
    requires asks { length asks.now ≡ length list.now }
    requires answers { length answers.old.items ≡ length list.now }
    requires count { E.count ends.old ≡ length list.now }
    requires stamp { stamp < 2 ^ 62 }
    requires can { (k : ℕ) → k < length list.now →
        CanOffer (end_at list.now k) (get_or asks.now k None) (E.end_at ends.old k) }
    ensures offers { OffersAll E.moved E.count E.end_at list.now asks.now stamp answers.new.items
        (length list.now) ends.old ends.new }
    ensures answers { length answers.new.items ≡ length list.now }
{
    for at in 0..list.len() {
        answers[at] = offer_one(ends, at, asks[at], stamp);
    }
}
