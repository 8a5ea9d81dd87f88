ghost use Rattle.std.specs.Prelude.{◌≡◌, ◌<◌, ◌++◌, ◌∷◌, ℕ, [], IfOk, length, get_or, set};
ghost use Rattle.sj_names.specs.declared.mention.Use.TheVariants as way;
ghost use Rattle.sj_names.specs.definitions.Failures.{first_domain};
ghost use Rattle.sj_names.specs.DomainNames.{names_in};
ghost use Rattle.sj_names.specs.Places.{place_lists, with_place, AreEmpty, AreOwned};

use crate::domains::Domains;
use crate::ends::number_at;
use crate::mention::Use;
use java_values::NoMemory;
use std::alloc::Global;

impl Domains<'_> {
    /// The first domain that mentions the interface signal, or domain 0.
    fn owner(&self, signal: u32) -> usize
        ensures { result ≡ first_domain (names_in self.now) way.PortSignal signal }
    {
        self.first(Use::PortSignal, signal).unwrap_or(0)
    }
}

fn push_at(lists: &mut Vec<Vec<u32>>, index: usize, at: u32) -> Result<(), NoMemory>
    requires { index < length (place_lists lists.old.items) }
    ensures { IfOk result (λ _. place_lists lists.new.items ≡
        set (place_lists lists.old.items) index (get_or (place_lists lists.old.items) index [] ++
        at ∷ [])) }
{
    lists[index].push(at)?;
    Ok(())
}

/// Adds the place to the list of this number, where there is one.
fn add_place(lists: &mut Vec<Vec<u32>>, index: usize, at: u32) -> Result<(), NoMemory>
    ensures { IfOk result (λ _. place_lists lists.new.items ≡
        with_place (place_lists lists.old.items) index at) }
{
    if index < lists.len() {
        push_at(lists, index, at)?;
    }
    Ok(())
}

fn empty_lists(alloc: Global, count: usize) -> Result<Vec<Vec<u32>>, NoMemory>
    ensures { IfOk result (λ lists. AreEmpty (place_lists lists.items) count) }
{
    let mut lists = Vec::new(alloc);
    for made in 0..count {
        prove!(made < count);
        lists.push(Vec::new(alloc))?;
    }
    Ok(lists)
}

impl Domains<'_> {
    /// For each domain those of these places of interface signals that belong to it.
    pub fn owned_places(&self, alloc: Global, places: &[u32]) -> Result<Vec<Vec<u32>>, NoMemory>
        ensures { IfOk result (λ lists. AreOwned (names_in self.now) places.now
            (place_lists lists.items)) }
    {
        let mut lists = empty_lists(alloc, self.names.len())?;
        for i in 0..places.len() {
            let owner = self.owner(number_at(i)?);
            add_place(&mut lists, owner, places[i])?;
        }
        Ok(lists)
    }
}
