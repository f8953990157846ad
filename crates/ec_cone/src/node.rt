//! The nodes of a growing cone.
ghost use Rattle.std.specs.Prelude.{◌≡◌, false, IfOk, IsTrue, map};
ghost use Rattle.std.specs.List.{list_all};
ghost use Rattle.ec_cone.specs.Growing.{is_new, node_reads, theory_reads};

use crate::source::Source;
use ec_lists::NoMemory;
use ec_terms::Theory;
use std::alloc::Global;

/// A source of readings: whether its form was reached, and whether what it reads was followed.
#[derive(Clone, Copy)]
pub(crate) struct Node<'t> {
    pub(crate) source: Source<'t>,
    pub(crate) reached: bool,
    pub(crate) followed: bool,
}

/// A node that is neither reached nor followed.
fn new_node(source: Source<'_>) -> Node<'_>
    ensures { result ≡ record { source = source.entry; reached = false; followed = false } }
{
    Node {
        source,
        reached: false,
        followed: false,
    }
}

/// The nodes of a theory: its rules, and then both sides of each declaration. `Err`: memory ran
/// out.
#[tactic(auto, unfolding(crate::specs::Growing::theory_reads))]
pub(crate) fn nodes_of<'t>(alloc: Global, theory: &'t Theory) -> Result<Vec<Node<'t>>, NoMemory>
    ensures nodes { IfOk result (λ nodes. map node_reads nodes.items ≡ theory_reads theory.now) }
    ensures fresh { IfOk result (λ nodes. IsTrue (list_all is_new nodes.items)) }
{
    let mut nodes = Vec::new(alloc);
    for rule in theory.rules.as_slice() {
        nodes.push(new_node(Source::Head(rule)))?;
    }
    for declaration in theory.exclusives.as_slice() {
        nodes.push(new_node(Source::Left(declaration)))?;
        nodes.push(new_node(Source::Right(declaration)))?;
    }
    Ok(nodes)
}
