ghost use Rattle.std.specs.Prelude.{◌≡◌};

use crate::{NumberingError, WireCounts, number_wires};
use std::test::Fail;
use wire_code::{Equation, Formula};

// Further wires begin here.
const FURTHER: u32 = 1 << 31;

const fn is(wire: u32, formula: Formula) -> Equation
    ensures { result ≡ record { wire = wire; formula = formula } }
{
    Equation { wire, formula }
}

#[test]
fn wires_of_both_counters_are_numbered(rt: HostRuntime) -> Result<(), Fail> {
    let counts = WireCounts { low: 2, high: 1 };
    let equations = vec![in rt.alloc();
        is(1, Formula::Get(0)),
        is(FURTHER, Formula::Not(1)),
        is(0, Formula::Choose(FURTHER, 1, FURTHER)),
    ]?;
    let numbered = number_wires(rt.alloc(), equations, counts)?;
    assert_eq!(rt; numbered.code.len(), 3);
    assert_eq!(rt; numbered.numbers.renamed(FURTHER), 1);
    assert_eq!(rt; numbered.numbers.get(FURTHER + 1), None);
    Ok(())
}

#[test]
fn a_wire_that_is_read_early_is_refused(rt: HostRuntime) -> Result<(), Fail> {
    let counts = WireCounts { low: 2, high: 0 };
    let equations = vec![in rt.alloc(); is(1, Formula::Not(0)), is(0, Formula::Get(0))]?;
    let refused = number_wires(rt.alloc(), equations, counts).map(|_| ());
    assert_eq!(rt; refused, Err(NumberingError::Unordered));
    Ok(())
}
