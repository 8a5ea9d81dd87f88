ghost use Rattle.std.specs.Prelude.{◌≡◌, ◌++◌, IfOk, drop, map};
ghost use Rattle.sj_names.specs.VisibleNames.{scope_of};
ghost use Rattle.sj_names.specs.definitions.Mentions.{Told, block_part, block_place, names_of_tree, interface_names, domain_mentions};

use crate::mention::Mention;
use crate::names::Names;
use crate::statements::Reader;
use java_values::NoMemory;
use sj_ast::{Block, Name, Raw, Tree};
use std::alloc::Global;

/// The names of a tree in source order: those of the interface, and those of each domain, with the place of its `{`.
#[derive(Drop)]
pub struct TreeNames {
    pub ports: Vec<Mention>,
    pub domains: Vec<Vec<Mention>>,
    pub places: Vec<u32>,
}

fn block_places(alloc: Global, blocks: &[Block<Name, Raw<Name>>]) -> Result<Vec<u32>, NoMemory>
    ensures { IfOk result (λ places. places.items ≡ map block_place blocks.now) }
{
    let mut places = Vec::new(alloc);
    for block in blocks {
        places.push(block.at)?;
    }
    Ok(places)
}

/// The names of a part of a tree, and those that are visible behind it.
#[derive(Drop)]
struct PartNames<'a> {
    visible: Names<'a>,
    mentions: Vec<Mention>,
}

fn domain_names<'a>(
    alloc: Global,
    visible: Names<'a>,
    domain: &'a Block<Name, Raw<Name>>,
) -> Result<PartNames<'a>, NoMemory>
    ensures scope { IfOk result (λ part. scope_of part.visible ≡
        (block_part domain.now (scope_of visible.entry)).scope) }
    ensures mentions { IfOk result (λ part. part.mentions.items ≡
        (block_part domain.now (scope_of visible.entry)).mentions) }
{
    let mut reader = Reader {
        names: visible,
        mentions: Vec::new(alloc),
    };
    reader.block(domain)?;
    Ok(PartNames {
        visible: reader.names,
        mentions: reader.mentions,
    })
}

fn port_names<'a>(alloc: Global, tree: &'a Tree<Name, Raw<Name>>) -> Result<PartNames<'a>, NoMemory>
    ensures scope { IfOk result (λ part. scope_of part.visible ≡ (interface_names tree.now).scope) }
    ensures mentions { IfOk result (λ part. part.mentions.items ≡
        (interface_names tree.now).mentions) }
{
    let mut reader = Reader {
        names: Names::new(alloc),
        mentions: Vec::new(alloc),
    };
    reader.ports(tree.ports.as_slice())?;
    Ok(PartNames {
        visible: reader.names,
        mentions: reader.mentions,
    })
}

impl TreeNames {
    ghost use Rattle.sj_names.specs.definitions.ReadNames.{tree_names_of};

    /// Reads the names of the tree.
    pub fn read(alloc: Global, tree: &Tree<Name, Raw<Name>>) -> Result<TreeNames, NoMemory>
        ensures { IfOk result (λ names. tree_names_of names ≡ names_of_tree tree.now) }
    {
        let interface = port_names(alloc, tree)?;
        let mut visible = interface.visible;
        let mut domains = Vec::new(alloc);
        for domain in tree.domains.as_slice() {
            let part = domain_names(alloc, visible, domain)?;
            visible = part.visible;
            domains.push(part.mentions)?;
        }
        let places = block_places(alloc, tree.domains.as_slice())?;
        Ok(TreeNames {
            ports: interface.mentions,
            domains,
            places,
        })
    }
}
