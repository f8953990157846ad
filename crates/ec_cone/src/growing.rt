//! The growth of a cone from a form, node by node.
ghost use Rattle.std.specs.Prelude.{◌≡◌, [], ◌∷◌, map, position, false};
ghost use Rattle.std.specs.List.{list_any};
ghost use Rattle.ec_cone.specs.Forms.{Form, pattern_form};
ghost use Rattle.ec_cone.specs.Growing.{IsGrowing, is_waiting, reached_by, source_reads};
ghost use Rattle.ec_terms.specs.declared.theory.Theory.{Theory};

use crate::node::Node;
use crate::source::Source;
use ec_terms::Pattern;

/// Reaches the nodes with a form.
pub(crate) fn reach(nodes: &mut [Node<'_>], name: &[u8], arity: usize)
    ensures { nodes.new ≡ map (reached_by ((record { name = name.now; arity = arity }) ∷ [])) nodes.old }
{
    for node in nodes.iter_mut() {
        if node.source.has_form(name, arity) {
            node.reached = true;
        }
    }
}

/// Reaches the nodes with the form of a pattern.
fn reach_pattern(nodes: &mut [Node<'_>], pattern: &Pattern)
    ensures { nodes.new ≡ map (reached_by (pattern_form pattern.now ∷ [])) nodes.old }
{
    reach(nodes, pattern.name.as_bytes(), pattern.args.len());
}

/// Reaches the nodes with a form that a source reads.
fn follow(nodes: &mut [Node<'_>], source: Source<'_>)
    ensures { nodes.new ≡ map (reached_by (source_reads source.entry).reads) nodes.old }
{
    match source {
        Source::Head(rule) => {
            for literal in rule.literals.as_slice() {
                reach_pattern(nodes, &literal.prop);
            }
        }
        Source::Left(declaration) => reach_pattern(nodes, &declaration.right),
        Source::Right(declaration) => reach_pattern(nodes, &declaration.left),
    }
}

/// The place of the first node that is reached and not followed yet.
fn first_waiting(nodes: &[Node<'_>]) -> Option<usize>
    ensures { result ≡ position is_waiting nodes.now }
{
    nodes.iter().position(|node| node.reached && !node.followed)
}

/// Follows each node that is reached, once, until none waits.
pub(crate) fn grow(nodes: &mut [Node<'_>])
    ensures grown { (theory : Theory) (start : Form) → IsGrowing theory start nodes.old → IsGrowing theory start nodes.new }
    ensures done { list_any is_waiting nodes.new ≡ false }
{
    while let Some(place) = first_waiting(nodes) {
        let source = nodes[place].source;
        nodes[place].followed = true;
        follow(nodes, source);
    }
}
