ghost use Rattle.std.specs.Prelude.{◌≡◌, ◌<◌, ◌∷◌, ◌+◌, length, drop, slice_index_or};

// What the elements from the i-th on tell of the i-th.
#[tactic(auto, using(crate::proofs::ListLemmas::first_elements))]
pub fn begins_with_item<T>(list: &[T], i: usize, item: &T)
    requires within { i < length list.now }
    requires item { item.now ≡ slice_index_or list.now i item.now }
    ensures { drop i list.now ≡ item.now ∷ drop (i + 1) list.now }
{}
