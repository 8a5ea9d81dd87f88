ghost use Rattle.std.specs.Prelude.{◌≡◌};
ghost use Rattle.kernel_terms.specs.TableEntries.{is_interface_of};
ghost use Rattle.kernel_terms.specs.TableEntries as entries;

use java_values::{Kind, Text};
use sqlite_items::Items;

/// What a signal is to its domain.
#[derive(Clone, Copy, Debug, Drop, PartialEq, Eq)]
pub enum Sort {
    Input,
    Output,
    Local,
}

/// How two emissions of a signal in one tick are combined.
#[derive(Clone, Copy, Debug, Drop, PartialEq, Eq)]
pub enum Combine {
    /// `+`, which wraps in the signal's kind.
    Add,
    Max,
    Min,
    /// `&`
    And,
    /// `|`
    Or,
    /// `^`
    Xor,
}

/// A signal of one domain. A pure signal has no kind, and `Max`.
#[derive(Debug, Drop)]
pub struct SignalInfo {
    pub name: Text,
    pub domain: u32,
    pub sort: Sort,
    pub kind: Option<Kind>,
    pub combine: Combine,
}

impl SignalInfo {
    /// Whether it is an interface signal of the domain: an input or an output of it.
    pub fn is_of_interface(&self, domain: u64) -> bool
        ensures { result ≡ is_interface_of domain self.now }
    {
        u64::from(self.domain) == domain && !is_local(self.sort)
    }
}

fn is_local(sort: Sort) -> bool
    ensures { result ≡ entries.is_local sort }
{
    match sort {
        Sort::Local => true,
        Sort::Input | Sort::Output => false,
    }
}

/// A channel, with the domain that sends on it and the one that receives.
#[derive(Debug, Drop)]
pub struct ChannelInfo {
    pub name: Text,
    pub kind: Kind,
    pub sender: u32,
    pub receiver: u32,
}

/// A variable of one domain.
#[derive(Clone, Copy, Debug, Drop, PartialEq, Eq)]
pub struct VariableInfo {
    pub domain: u32,
    pub kind: Kind,
}

/// The signals, channels and variables of a system, by number. Interface signals come first, in order of
/// declaration.
#[derive(Debug, Drop)]
pub struct Tables {
    pub signals: Items<SignalInfo>,
    pub channels: Items<ChannelInfo>,
    pub variables: Items<VariableInfo>,
}
