// The words of a command.

#[cfg(test)]
mod tests;

ghost use Rattle.std.specs.Prelude.{◌≡◌, ◌≢◌, ◌∷◌, ◌++◌, ◌+◌, ◌<◌, List, ℕ, IfOk, OnErr, MatchBool, MatchOption, codes};
ghost use Rattle.sj_main.specs.CommandWords.{BeginsTwo, NoTwo, BeginsTurn, NoTurn, NoList, IsLast, IsMore, HasList, NoFewTurns, IsTurnList, NoEach, HasEach, NoRounds, NoTurns, HasTurns, AreOrderWords, NoOrderWords};
ghost use Rattle.sj_main.specs.definitions.Commands.{most_turns, whole_number, IsEach, IsRoundCount, IsTurns, IsOrder, IsNoCommand, word_list, IsCommand};

use crate::numbers::number_in;
use java_values::NoMemory;
use kernel_terms::MOST_DOMAINS;
use sqlite_items::Items;
use std::alloc::Global;

/// How many turns one domain may have.
const MOST_TURNS: u32 = 100_000;

/// The turns of domains.
#[derive(Debug, Drop)]
pub enum Turns {
    /// So many rounds, of a turn of each domain by rising number.
    Rounds(u32),
    /// A turn of each of these domains.
    Each(Items<u32>),
}

/// `order FILE TURNS -`: the run of these turns of the program in a file.
#[derive(Drop)]
pub struct Order<'a> {
    pub file: &'a str,
    pub turns: Turns,
}

/// A turn, and the bytes after it.
#[derive(Clone, Copy)]
struct Turn<'a> {
    domain: u32,
    rest: &'a [u8],
}

/// A turn of two digits.
#[tactic(auto, using(crate::proofs::ReadTurns::two_steps))]
fn two_digits(word: &[u8]) -> Option<Turn<'_>>
    ensures { MatchOption result (NoTwo word.now) (λ t. BeginsTwo word.now t.domain t.rest.now) }
{
    if let [first, second, rest @ ..] = word {
        if *first == b'1' && (b'0' <= *second && *second <= b'5') {
            return Some(Turn {
                domain: (*second - b'0') as u32 + 10,
                rest,
            });
        }
    }
    None
}

/// The turn that the bytes begin with.
#[tactic(auto, using(crate::proofs::ReadTurns::first_steps))]
fn first_turn(word: &[u8]) -> Option<Turn<'_>>
    ensures { MatchOption result (NoTurn word.now) (λ t. BeginsTurn word.now t.domain t.rest.now) }
{
    if let Some(turn) = two_digits(word) {
        return Some(turn);
    }
    let [first, rest @ ..] = word else {
        return None;
    };
    if *first < b'0' || *first > b'9' {
        return None;
    }
    Some(Turn {
        domain: (*first - b'0') as u32,
        rest,
    })
}

/// A turn of a list, and the bytes after its comma, if it is not the last.
#[derive(Clone, Copy)]
struct Listed<'a> {
    domain: u32,
    after: Option<&'a [u8]>,
}

fn after_comma(rest: &[u8]) -> Option<&[u8]>
    ensures { MatchOption result ((after : List ℕ) →
        rest.now ≢ 44 ∷ after) (λ after. rest.now ≡ 44 ∷ after.now) }
{
    if let [b',', after @ ..] = rest {
        Some(after)
    } else {
        None
    }
}

/// The turn that a list begins with.
#[tactic(auto, using(crate::proofs::ReadTurns::list_steps))]
fn first_listed(word: &[u8]) -> Option<Listed<'_>>
    ensures { MatchOption result (NoList word.now)
        (λ l. MatchOption l.after (IsLast word.now l.domain)
        (λ rest. IsMore word.now l.domain rest.now)) }
{
    let turn = first_turn(word)?;
    if turn.rest.is_empty() {
        return Some(Listed {
            domain: turn.domain,
            after: None,
        });
    }
    let Some(after) = after_comma(turn.rest) else {
        return None;
    };
    Some(Listed {
        domain: turn.domain,
        after: Some(after),
    })
}

/// Whether the bytes are turns with commas, of which no domain has too many.
#[tactic(auto, using(crate::proofs::ReadTurns::check_steps))]
fn is_list(word: &[u8]) -> bool
    ensures { MatchBool result (HasList word.now) (NoFewTurns word.now) }
{
    let mut counts = [0u32; MOST_DOMAINS];
    let mut left = word;
    loop {
        let Some(Listed { domain, after }) = first_listed(left) else {
            return false;
        };
        if counts[domain as usize] == MOST_TURNS {
            return false;
        }
        counts[domain as usize] += 1;
        match after {
            Some(rest) => left = rest,
            None => return true,
        }
    }
}

/// The turns of a list with commas.
#[tactic(auto, using(crate::proofs::ReadTurns::read_steps))]
fn read_list(alloc: Global, word: &[u8]) -> Result<Vec<u32>, NoMemory>
    requires { HasList word.now }
    ensures { IfOk result (λ v. IsTurnList word.now v.items) }
{
    let mut turns = Vec::new(alloc);
    let mut left = word;
    loop {
        let Some(Listed { domain, after }) = first_listed(left) else {
            unreachable!()
        };
        turns.push(domain)?;
        match after {
            Some(rest) => left = rest,
            None => return Ok(turns),
        }
    }
}

/// Turns one by one.
#[tactic(auto, using(crate::proofs::ReadTurns::each_steps))]
fn read_each(alloc: Global, word: &[u8]) -> Result<Option<Items<u32>>, NoMemory>
    ensures ok { IfOk result
        (λ o. MatchOption o (NoEach word.now) (λ turns. IsEach word.now turns)) }
    ensures err { OnErr result (HasEach word.now) }
{
    if word == b"-".as_slice() {
        return Ok(Some(Items::new(alloc)));
    }
    if !is_list(word) {
        return Ok(None);
    }
    let turns = read_list(alloc, word)?;
    Ok(Some(Items::from_vec(turns)))
}

/// The number that a word is in decimal, with no zero before it.
fn whole_number(word: &[u8]) -> Option<u32>
    ensures { result ≡ whole_number most_turns word.now }
{
    let [first, rest @ ..] = word else {
        return None;
    };
    if *first == b'0' && !rest.is_empty() {
        return None;
    }
    let number = number_in(u64::from(MOST_TURNS), word)?;
    Some(number as u32)
}

/// The bytes after `rr:`.
fn after_rounds(word: &[u8]) -> Option<&[u8]>
    ensures { MatchOption result ((digits : List ℕ) → word.now ≡ codes "rr:" ++ digits →
        ⊥) (λ digits. word.now ≡ codes "rr:" ++ digits.now) }
{
    if let [b'r', b'r', b':', digits @ ..] = word {
        Some(digits)
    } else {
        None
    }
}

/// Rounds of all domains.
#[tactic(auto, using(crate::proofs::ReadTurns::round_steps))]
fn read_rounds(word: &[u8]) -> Option<u32>
    ensures { MatchOption result (NoRounds word.now) (λ rounds. IsRoundCount word.now rounds) }
{
    let digits = after_rounds(word)?;
    whole_number(digits)
}

/// The turns that a word is.
#[tactic(auto, using(crate::proofs::ReadTurns::turn_steps))]
fn read_turns(alloc: Global, word: &[u8]) -> Result<Option<Turns>, NoMemory>
    ensures ok { IfOk result (λ o. MatchOption o (NoTurns word.now)
        (λ turns. IsTurns word.now turns)) }
    ensures err { OnErr result (HasTurns word.now) }
{
    if let Some(rounds) = read_rounds(word) {
        return Ok(Some(Turns::Rounds(rounds)));
    }
    let Some(turns) = read_each(alloc, word)? else {
        return Ok(None);
    };
    Ok(Some(Turns::Each(turns)))
}

/// The file of an order, and the word of its turns.
struct OrderWords<'a> {
    file: &'a str,
    turns: &'a [u8],
}

/// The words of an order: `order`, a file, turns and `-`.
fn order_words(words: &[String]) -> Option<OrderWords<'_>>
    ensures { MatchOption result (NoOrderWords (word_list words.now))
        (λ w. AreOrderWords (word_list words.now) w.file.now w.turns.now) }
{
    if words.len() != 4 {
        return None;
    }
    if words[0].as_str() != "order" || words[3].as_str() != "-" {
        return None;
    }
    Some(OrderWords {
        file: words[1].as_str(),
        turns: words[2].as_bytes(),
    })
}

/// The command that the words are. Only those of a command take memory.
#[tactic(auto, using(crate::proofs::WordLemmas::word_steps))]
pub fn read_order(alloc: Global, words: &[String]) -> Result<Option<Order<'_>>, NoMemory>
    ensures ok { IfOk result (λ o. MatchOption o (IsNoCommand (word_list words.now))
        (λ order. IsOrder (word_list words.now) order.file.now order.turns)) }
    ensures err { OnErr result (IsCommand (word_list words.now)) }
{
    let Some(OrderWords { file, turns }) = order_words(words) else {
        return Ok(None);
    };
    let Some(turns) = read_turns(alloc, turns)? else {
        return Ok(None);
    };
    Ok(Some(Order { file, turns }))
}
