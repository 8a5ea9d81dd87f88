//! The trees of sources, as they are written. Names are of a type `N`: texts, or numbers.
#![tactic(auto)]

mod expression;
mod name;
mod port;
mod statement;
mod test;

pub use expression::Raw;
pub use name::Name;
pub use port::{
    ChannelPort, Combination, CombineOperator, Direction, Port, Signal, SignalPort, Valued,
};
pub use statement::{Block, Form, Stmt, Tree};
pub use test::Test;
