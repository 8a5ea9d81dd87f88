use crate::tables::Tables;
use crate::term::Term;
use sqlite_items::Items;

/// A program: its tables, and one statement per clock domain, by rising number. It is well formed.
#[derive(Drop)]
pub struct System {
    tables: Tables,
    domains: Items<Term>,
    ghost well_formed: { is_well_formed tables domains ≡ true },
}

ghost use Rattle.std.specs.Prelude.{◌≡◌, true};
ghost use Rattle.kernel_terms.specs.WellFormed.{is_well_formed};

impl System {
    ghost use Rattle.std.specs.Prelude.{◌≡◌, true, length, slice_get, Some};
    ghost use Rattle.kernel_terms.specs.WellFormed.{is_well_formed};
    ghost use Rattle.kernel_terms.specs.Systems.{tables_of, domains_of};

    /// The system of these tables and domains, which are well formed.
    pub fn new(tables: Tables, domains: Items<Term>) -> System
        requires { is_well_formed tables domains ≡ true }
        ensures tables { tables_of result ≡ tables }
        ensures domains { domains_of result ≡ domains }
    {
        System { tables, domains }
    }

    /// The signals, channels and variables.
    pub fn tables(&self) -> &Tables
        ensures { result.now ≡ tables_of self.now }
    {
        &self.tables
    }

    /// The statement of each clock domain, by rising number.
    pub fn domains(&self) -> &[Term]
        ensures { result.now ≡ domains_of self.now }
    {
        self.domains.as_slice()
    }
}
