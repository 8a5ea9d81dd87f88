// The joins at the ends of a domain.

ghost use Rattle.std.specs.Prelude.{◌≡◌, ◌≢◌, ◌+◌, ◌<◌, ◌≤◌, ℕ, [], ◌∷◌, ◌++◌, length, get_or, set, None, Some, IsSome, IfOk, Vec, vec_len, vec_capacity};
ghost use Rattle.std.specs.Global.{Global};
ghost use Rattle.domain_core.specs.declared.step.ends_of.EndJoin.{EndJoin};
ghost use Rattle.domain_core.specs.definitions.step.Steps.{add_join, add_joins};
ghost use Rattle.domain_core.specs.step.JoinLists.{joins_in, HasRoom};

use crate::step::ends_of::EndJoin;
use cell_core::Joined;
use java_values::NoMemory;

// Adds the join, if there is one, at the end of this number.
fn add_join(lists: &mut Vec<Vec<EndJoin>>, at: usize, answer: Option<Joined>, ticks: u32)
    requires within { at < length lists.old.items }
    requires room { IsSome answer → (v : Vec EndJoin Global) →
        vec_len (get_or lists.old.items at v) < vec_capacity (get_or lists.old.items at v) }
    ensures joins { joins_in lists.new.items ≡ add_join ticks at answer (joins_in lists.old.items) }
    ensures len { length lists.new.items ≡ length lists.old.items }
    ensures others { (k : ℕ) (v : Vec EndJoin Global) → k ≢ at →
        get_or lists.new.items k v ≡ get_or lists.old.items k v }
    ensures capacity { (k : ℕ) (v : Vec EndJoin Global) → k < length lists.old.items →
        vec_capacity (get_or lists.old.items k v) ≤ vec_capacity (get_or lists.new.items k v) }
{
    if let Some(joined) = answer {
        let list = &mut lists[at];
        list.push_reserved(EndJoin { joined, ticks });
    }
}

/// Adds the joins that were answered, after so many ticks. It takes no memory.
pub fn add_joins(lists: &mut Vec<Vec<EndJoin>>, answers: &[Option<Joined>], ticks: u32)
    requires answers { length answers.now ≡ length lists.old.items }
    requires room { HasRoom lists.old.items answers.now 0 }
    ensures joins { joins_in lists.new.items ≡
        add_joins ticks answers.now (length lists.old.items) (joins_in lists.old.items) }
    ensures len { length lists.new.items ≡ length lists.old.items }
    ensures capacity { (k : ℕ) (v : Vec EndJoin Global) → k < length lists.old.items →
        vec_capacity (get_or lists.old.items k v) ≤ vec_capacity (get_or lists.new.items k v) }
{
    for at in 0..lists.len() {
        add_join(lists, at, answers[at], ticks);
    }
}

// Takes memory for at least so many joins.
fn grow_list(list: &mut Vec<EndJoin>, room: usize) -> Result<(), NoMemory>
    ensures items { list.new.items ≡ list.old.items }
    ensures capacity { vec_capacity list.old ≤ vec_capacity list.new }
    ensures room { IfOk result (λ _. room ≤ vec_capacity list.new) }
{
    list.reserve(room.saturating_sub(list.len()))?;
    Ok(())
}

/// Takes memory for at least so many joins at each end. All joins stay, also where it is refused.
pub fn grow(lists: &mut Vec<Vec<EndJoin>>, room: usize) -> Result<(), NoMemory>
    ensures joins { joins_in lists.new.items ≡ joins_in lists.old.items }
    ensures len { length lists.new.items ≡ length lists.old.items }
    ensures capacity { (k : ℕ) (v : Vec EndJoin Global) → k < length lists.old.items →
        vec_capacity (get_or lists.old.items k v) ≤ vec_capacity (get_or lists.new.items k v) }
    ensures room { IfOk result (λ _. (k : ℕ) (v : Vec EndJoin Global) → k < length lists.old.items →
        room ≤ vec_capacity (get_or lists.new.items k v)) }
{
    for at in 0..lists.len() {
        grow_list(&mut lists[at], room)?;
    }
    Ok(())
}
