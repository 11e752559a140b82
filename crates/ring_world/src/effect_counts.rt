//! The length of the order.
//!
//! Rules: Sessions 10

ghost use Rattle.std.specs.Prelude.{◌≡◌};
ghost use Rattle.ring_base.specs.Numbers.{greatest};
ghost use Rattle.ring_world.specs.Ordering.{effects_of_nodes};

use ring_node::Node;
use ring_object::Object;

/// Returns the greatest number of calls that took effect at one of these nodes, or 0 if there are no nodes.
///
/// For all nodes of a run this is the length of the order.
///
/// Rules: Sessions 10
pub(crate) fn max_effects<O: Object>(nodes: &[Node<O>]) -> u64
    ensures { result ≡ greatest (effects_of_nodes O.sequential nodes.now) }
{
    let mut most = 0;
    for node in nodes {
        let len = node.order_len();
        if len > most {
            most = len;
        }
    }
    most
}
