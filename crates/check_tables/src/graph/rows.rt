ghost use Rattle.std.specs.Prelude.{◌≡◌, ◌<◌, [], length, slice_index_or};

use hume_base::List;

// The numbers of the nodes that a node leads to.
pub(crate) fn row_of(graph: &List<List<u32>>, a: usize) -> &[u32]
    requires { a < length graph.now }
    ensures { result.now ≡ slice_index_or graph.now a [] }
{
    graph.as_slice()[a].as_slice()
}
