ghost use Rattle.std.specs.Prelude.{◌≡◌};
ghost use Rattle.std.specs.List.{flat_map};
ghost use Rattle.sj_names.specs.definitions.Failures.{fits, is_in, is_port_signal, is_signal, is_channel, is_before, lesser, least_of, where_true, own_failures, use_failures, rank, failure_at};

use crate::failure::{Failure, FailureKind};
use crate::mention::{Group, Meaning, Mention, NameSort, Role};

impl NameSort {
    pub fn is_port_signal(self) -> bool
        ensures { result ≡ is_port_signal self }
    {
        match self {
            NameSort::Input | NameSort::Output => true,
            NameSort::Local | NameSort::Channel | NameSort::Variable | NameSort::Trap => false,
        }
    }

    pub fn is_signal(self) -> bool
        ensures { result ≡ is_signal self }
    {
        match self {
            NameSort::Input | NameSort::Output | NameSort::Local => true,
            NameSort::Channel | NameSort::Variable | NameSort::Trap => false,
        }
    }

    pub fn is_channel(self) -> bool
        ensures { result ≡ is_channel self }
    {
        match self {
            NameSort::Channel => true,
            NameSort::Input
            | NameSort::Output
            | NameSort::Local
            | NameSort::Variable
            | NameSort::Trap => false,
        }
    }
}

impl NameSort {
    pub fn is_in(self, group: Group) -> bool
        ensures { result ≡ is_in group self }
    {
        match group {
            Group::PortSignal => self.is_port_signal(),
            Group::Signal => self.is_signal(),
            Group::Channel => self.is_channel(),
            Group::Variable => matches!(self, NameSort::Variable),
        }
    }
}

impl Role {
    /// Whether a name of this sort may stand in this role.
    pub fn fits(self, sort: NameSort) -> bool
        ensures { result ≡ fits self sort }
    {
        match self {
            Role::Declare(_) => false,
            Role::Emit | Role::Test => sort.is_signal(),
            Role::Send | Role::Receive => sort.is_channel(),
            Role::Status => sort.is_signal() || sort.is_channel(),
            Role::Exit => matches!(sort, NameSort::Trap),
            Role::Variable => matches!(sort, NameSort::Variable),
        }
    }
}

impl FailureKind {
    fn rank(self) -> u8
        ensures { result ≡ rank self }
    {
        match self {
            FailureKind::Unknown => 0,
            FailureKind::Twice => 1,
            FailureKind::SignalShared => 2,
            FailureKind::EmitInput => 3,
            FailureKind::ChannelEnds => 4,
            FailureKind::TooMany => 5,
        }
    }
}

impl Failure {
    fn is_before(self, other: Failure) -> bool
        ensures { result ≡ is_before self other }
    {
        self.at < other.at || self.at == other.at && self.fault.rank() < other.fault.rank()
    }
}

/// The least of the failures so far.
#[derive(Clone, Copy)]
pub struct Least {
    pub found: Option<Failure>,
}

impl Least {
    /// One failure more.
    pub fn add(&mut self, at: u32, fault: FailureKind)
        ensures { self.new.found ≡ lesser self.old.found (failure_at fault at) }
    {
        let failure = Failure { at, fault };
        match self.found {
            Some(least) if !failure.is_before(least) => {}
            _ => self.found = Some(failure),
        }
    }

    /// One more where the test holds.
    pub fn add_where(&mut self, test: bool, at: u32, fault: FailureKind)
        ensures { self.new.found ≡ least_of self.old.found (where_true test (failure_at fault at)) }
    {
        if test {
            self.add(at, fault);
        }
    }

    fn add_use(&mut self, role: Role, at: u32, meaning: Meaning)
        ensures { self.new.found ≡ least_of self.old.found (use_failures role at meaning) }
    {
        if role.fits(meaning.sort) {
            let emits = matches!(role, Role::Emit);
            let input = matches!(meaning.sort, NameSort::Input);
            self.add_where(emits && input, at, FailureKind::EmitInput);
        } else {
            self.add(at, FailureKind::Unknown);
        }
    }

    fn add_own(&mut self, mention: &Mention)
        ensures { self.new.found ≡ least_of self.old.found (own_failures mention.now) }
    {
        match mention.role {
            Role::Declare(_) => {
                self.add_where(mention.meaning.is_some(), mention.at, FailureKind::Twice);
            }
            role => match mention.meaning {
                None => self.add(mention.at, FailureKind::Unknown),
                Some(meaning) => self.add_use(role, mention.at, meaning),
            },
        }
    }

    /// The failures of each name by itself.
    pub fn add_names(&mut self, mentions: &[Mention])
        ensures { self.new.found ≡ least_of self.old.found (flat_map own_failures mentions.now) }
    {
        for mention in mentions {
            self.add_own(mention);
        }
    }
}
