// What threads may do with a system.

ghost use Rattle.std.specs.Prelude.{◌≡◌};

use crate::system::System;

fn shared<T: Sync>(item: &T) -> &T
    ensures { result.now ≡ item.now }
{
    item
}

/// Threads may share a system, since it is `Sync`.
pub fn threads_share_systems(system: &System) -> &System
    ensures { result.now ≡ system.now }
{
    shared(system)
}
