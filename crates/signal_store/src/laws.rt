// What threads may do with inputs.

ghost use Rattle.std.specs.Prelude.{◌≡◌};

use crate::inputs::Inputs;

fn shared<T: Sync>(item: &T) -> &T
    ensures { result.now ≡ item.now }
{
    item
}

/// Threads may share inputs, since they are `Sync`.
pub fn threads_share_inputs(inputs: &Inputs) -> &Inputs
    ensures { result.now ≡ inputs.now }
{
    shared(inputs)
}
