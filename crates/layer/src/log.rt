// The log: U and V of each node, level by level and index by index.
ghost use Rattle.std.specs.Prelude.{◌≡◌, ◌+◌, ◌*◌, ◌≤◌, length};
ghost use Rattle.refusals.specs.RefusalLaws.{InRange};
ghost use Rattle.layer.specs.OneLayer.{nodes_in, Counted, LayerLogged};

use super::Layer;
use refusals::Params;

// Writes U and V of a layer's nodes to the log from a place on. Answers the place after them.
pub fn put_layer(log: &mut [u64], at: usize, params: Params, layer: Layer) -> usize
    requires in_range { InRange params.keylen params.d params.limit params.rounds × Counted layer }
    requires room { at + 2 * nodes_in layer ≤ length log.old }
    ensures { (result ≡ at + 2 * nodes_in layer) × LayerLogged params layer at log.old log.new }
{
    let mut to = at;
    for i in 0..super::nodes(layer) {
        node::log_node(params, super::place(layer, i), log, to);
        to += 2;
    }
    to
}
