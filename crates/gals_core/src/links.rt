ghost use Rattle.std.specs.Prelude.{◌≡◌, map, IfOk};
ghost use Rattle.gals_core.specs.Opening.{link_of};

use java_values::{Kind, NoMemory};
use kernel_terms::ChannelInfo;
use std::alloc::Global;

/// A channel's kind and its two domains.
#[derive(Clone, Copy, Debug, Drop, PartialEq, Eq)]
pub struct Link {
    pub kind: Kind,
    pub sender: u32,
    pub receiver: u32,
}

/// The links of channels, by rising number.
pub fn open_links(alloc: Global, infos: &[ChannelInfo]) -> Result<Vec<Link>, NoMemory>
    ensures { IfOk result (λ v. v.items ≡ map link_of infos.now) }
{
    let mut links = Vec::with_capacity(alloc, infos.len())?;
    for info in infos {
        links.push(Link {
            kind: info.kind,
            sender: info.sender,
            receiver: info.receiver,
        })?;
    }
    Ok(links)
}
