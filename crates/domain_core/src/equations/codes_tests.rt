ghost use Rattle.std.specs.Prelude.{◌≡◌, true};
ghost use Rattle.kernel_terms.specs.declared.term.Form.TheViews as Form;
ghost use Rattle.kernel_terms.specs.Built.{is_built};
ghost use Rattle.domain_core.specs.equations.BuiltForms.{plain};
ghost use Rattle.domain_core.specs.equations.BuiltLimits.{CanBuild};

use crate::equations::codes::Codes;
use java_values::NoMemory;
use kernel_terms::{Form, Term};
use std::alloc::Global;
use std::test::Fail;

fn receive_can_be_built(term: &Term, channel: u32)
    requires { term.now.form ≡ Form.Receive channel }
    ensures built { is_built term.now ≡ true }
    ensures can { CanBuild 0 (plain term.now) }
{}

// Which of a starting tick and of two later ones end, where all ends have met before the last.
fn endings(alloc: Global, term: &Term, signals: u32) -> Result<[bool; 3], NoMemory>
    requires built { is_built term.now ≡ true }
    requires can { CanBuild signals (plain term.now) }
{
    let codes = Codes::new(alloc, term, &[], signals, &[])?;
    let mut registers = vec![in alloc; 0i64; codes.register_count()]?;
    let mut wires = vec![in alloc; 0i64; codes.wire_count()]?;
    let mut present = vec![in alloc; false; codes.signal_count()]?;
    let first = codes.start(&mut registers, &mut wires, &mut present);
    let second = codes.resume(&mut registers, &mut wires, &mut present);
    for place in codes.places() {
        let met = place.met as usize;
        if met < registers.len() {
            registers[met] = 1;
        }
    }
    let third = codes.resume(&mut registers, &mut wires, &mut present);
    Ok([first, second, third])
}

#[test]
fn a_receive_ends_once_it_has_met(rt: HostRuntime) -> Result<(), Fail> {
    let term = Term {
        at: 0,
        form: Form::Receive { channel: 3 },
    };
    receive_can_be_built(&term, 3);
    let ended = endings(rt.alloc(), &term, 0)?;
    assert!(rt; !ended[0] && !ended[1] && ended[2]);
    Ok(())
}
