ghost use Rattle.std.specs.Prelude.{◌≡◌, ◌+◌, ◌-◌, ◌^◌, ◌≤◌, IfOk, IsErr, length};
ghost use Rattle.sj_names.specs.definitions.Scopes.{count_of, counted, no_names, meaning_in, declare, closed_at};
ghost use Rattle.sj_names.specs.definitions.NumberedTrees.{number_where};
ghost use Rattle.sj_names.specs.FoundNames.{AreFound, named};

use crate::mention::{Counts, Meaning, NameSort, Role};
use java_values::NoMemory;
use std::alloc::Global;
use std::collections::BTreeMap;

impl Counts {
    /// The number of the next name of this sort.
    pub fn next(&self, sort: NameSort) -> u32
        ensures { result ≡ count_of sort self.now }
    {
        match sort {
            NameSort::Input | NameSort::Output | NameSort::Local => self.signals,
            NameSort::Channel => self.channels,
            NameSort::Variable => self.variables,
            NameSort::Trap => self.traps,
        }
    }

    /// One more of this sort.
    fn count(&mut self, sort: NameSort) -> Result<(), NoMemory>
        ensures value { IfOk result (λ _. self.new ≡ counted sort self.old) }
        ensures full { IsErr result → 2 ^ 32 ≤ count_of sort self.old + 1 }
    {
        match sort {
            NameSort::Input | NameSort::Output | NameSort::Local => {
                self.signals = self.signals.checked_add(1).ok_or(NoMemory)?;
            }
            NameSort::Channel => self.channels = self.channels.checked_add(1).ok_or(NoMemory)?,
            NameSort::Variable => self.variables = self.variables.checked_add(1).ok_or(NoMemory)?,
            NameSort::Trap => self.traps = self.traps.checked_add(1).ok_or(NoMemory)?,
        }
        Ok(())
    }
}

/// A name that is visible.
#[derive(Clone, Copy)]
pub struct Visible<'a> {
    pub name: &'a [u8],
    pub meaning: Meaning,
}

/// The visible names, in order of declaration, and how many were declared.
#[derive(Drop)]
pub struct Names<'a> {
    visible: Vec<Visible<'a>>,
    meanings: BTreeMap<&'a [u8], Meaning>,
    counts: Counts,
    ghost found: { AreFound (named visible.items) meanings },
}

impl<'a> Names<'a> {
    ghost use Rattle.sj_names.specs.VisibleNames.{scope_of};

    pub fn new(alloc: Global) -> Names<'a>
        ensures { scope_of result ≡ no_names }
    {
        Names {
            visible: Vec::new(alloc),
            meanings: BTreeMap::new(alloc),
            counts: Counts {
                signals: 0,
                channels: 0,
                variables: 0,
                traps: 0,
            },
        }
    }

    /// How many names are visible.
    pub fn len(&self) -> usize
        ensures { result ≡ length (scope_of self.now).visible }
    {
        self.visible.len()
    }

    /// What the name stands for.
    pub fn meaning(&self, name: &[u8]) -> Option<Meaning>
        ensures { result ≡ meaning_in (scope_of self.now).visible name.now }
    {
        self.meanings.get(name).copied()
    }

    /// The number of what the name stands for, or of what it declares.
    pub fn number(&self, role: Role, name: &[u8]) -> u32
        ensures { result ≡
            number_where role (meaning_in (scope_of self.now).visible name.now)
            (scope_of self.now).counts }
    {
        match self.meaning(name) {
            Some(meaning) => meaning.number,
            None => match role {
                Role::Declare(sort) => self.counts.next(sort),
                _ => 0,
            },
        }
    }

    /// Declares the name, where it isn't visible.
    pub fn declare(&mut self, sort: NameSort, name: &'a [u8]) -> Result<(), NoMemory>
        ensures { IfOk result (λ _. scope_of self.new ≡ declare sort name.now (scope_of self.old)) }
    {
        if self.meaning(name).is_some() {
            return Ok(());
        }
        let meaning = Meaning {
            sort,
            number: self.counts.next(sort),
        };
        self.counts.count(sort)?;
        self.visible.push(Visible { name, meaning })?;
        if self.meanings.insert(name, meaning).is_err() {
            self.visible.pop();
            return Err(NoMemory);
        }
        Ok(())
    }

    /// Ends the scope of the name that was declared last.
    fn forget(&mut self)
        ensures { scope_of self.new ≡
            closed_at (length (scope_of self.old).visible - 1) (scope_of self.old) }
    {
        if let Some(last) = self.visible.pop() {
            self.meanings.remove(last.name);
        }
    }

    /// Ends the scope of all names but the first ones.
    pub fn close(&mut self, first: usize)
        ensures { scope_of self.new ≡ closed_at first (scope_of self.old) }
    {
        while self.visible.len() > first {
            self.forget();
        }
    }
}
