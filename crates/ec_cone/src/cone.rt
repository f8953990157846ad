//! The cone of a property, by the rules of its theory.
ghost use Rattle.std.specs.Prelude.{◌≡◌, IfOk, map};
ghost use Rattle.ec_terms.specs.Term.{ground_of};
ghost use Rattle.ec_cone.specs.declared.node.Node.{Node as ANode};
ghost use Rattle.ec_cone.specs.Cone.{cone_rules, has_number};

use crate::growing::{grow, reach};
use crate::node::{Node, nodes_of};
use ec_lists::NoMemory;
use ec_terms::{GroundRef, Theory};
use std::alloc::Global;
use std::marker::Model;

/// The rules of a theory whose entries bear on one property. Contracts see, for each rule in order,
/// whether its head is in the property's cone.
#[derive(Drop)]
pub struct Cone {
    rules: Vec<bool>,
}

impl Model for Cone {
    ghost use Rattle.std.specs.Prelude.{Bool, List};

    ghost Value = { List Bool };

    ghost view = { λ cone. cone.rules.items };
}

/// Whether each node is reached. `Err`: memory ran out.
fn are_reached(alloc: Global, nodes: &[Node<'_>]) -> Result<Vec<bool>, NoMemory>
    ensures { IfOk result (λ flags. flags.items ≡ map (λ (node : ANode). node.reached) nodes.now) }
{
    let mut flags = Vec::new(alloc);
    for node in nodes {
        flags.push(node.reached)?;
    }
    Ok(flags)
}

impl Cone {
    /// The cone of a property under a theory. The property need not be one that the theory names.
    /// `Err`: memory ran out.
    pub fn of(alloc: Global, theory: &Theory, p: &GroundRef<'_>) -> Result<Cone, NoMemory>
        ensures { IfOk result (λ cone. cone ≡ cone_rules theory.now (ground_of p.now)) }
    {
        let mut nodes = nodes_of(alloc, theory)?;
        reach(nodes.as_mut_slice(), p.name, p.args.len());
        grow(nodes.as_mut_slice());
        nodes.truncate(theory.rules.len());
        let rules = are_reached(alloc, nodes.as_slice())?;
        Ok(Cone { rules })
    }

    /// Whether the head of the rule with a number is in the cone. Rules are numbered from 1; there
    /// is no rule 0, and none past the last.
    pub fn has_rule(&self, rule: u16) -> bool
        ensures { result ≡ has_number self.now rule }
    {
        if rule == 0 {
            return false;
        }
        match self.rules.get(usize::from(rule) - 1) {
            Some(is_in) => *is_in,
            None => false,
        }
    }
}
