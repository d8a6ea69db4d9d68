ghost use Rattle.std.specs.Prelude.{◌≡◌, ℕ, List, length, map, slice_get, slice_index_or, slice_set, Some, ◌<◌};
ghost use Rattle.std.specs.List.{list_any, range_with_len};
ghost use Rattle.hume_ports.specs.Ports.{place_of};
ghost use Rattle.hume_console.specs.Session.{Session, is_taken};
ghost use Rattle.hume_console.specs.Hands.{place_without as without};
ghost use Rattle.hume_console.specs.inner.Placed.{ArePlaced, stands_at as stands, stands_own, is_stream_at};

use hume_model::{Core, NodeC};

/// Where the ports of a session stand among those that are handed in.
#[derive(Drop)]
pub struct Places {
    pub source: usize,
    pub std_in: usize,
    pub std_out: usize,
    /// Those of the streams' present ports, one for each node. For a box stands any number.
    pub streams: Vec<usize>,
}

impl Places {
    /// Whether the port at that place is the source's, a standard one, or one that a stream has.
    pub fn is_taken(&self, core: &Core, at: usize) -> bool
        ensures { (source : List ℕ) (session : Session) (names : List (List ℕ)) (port : List ℕ)
            → ArePlaced core.now source session names self.now → place_of port names ≡ Some at → result ≡ is_taken core.now source session port }
    {
        if self.is_own(at) {
            return true;
        }
        self.is_of_stream(core, at)
    }

    // Whether the port at that place is the source's or a standard one.
    fn is_own(&self, at: usize) -> bool
        ensures { result ≡ stands_own self.now at }
    {
        at == self.source || at == self.std_in || at == self.std_out
    }

    /// Where the port of a stream stands.
    pub fn of_node(&self, node: usize) -> usize
        requires { node < length self.now.streams.items }
        ensures { result ≡ slice_index_or self.now.streams.items node 0 }
    {
        self.streams[node]
    }

    // Whether a stream has the port at that place.
    #[tactic(auto, using(crate::proofs::Placing::any_steps))]
    fn is_of_stream(&self, core: &Core, at: usize) -> bool
        ensures { result ≡ list_any (stands core.now self.now.streams.items at) (range_with_len 0 (length self.now.streams.items)) }
    {
        for node in 0..self.streams.len() {
            if self.stands_at(core, at, node) {
                return true;
            }
        }
        false
    }

    // Whether the node is a stream whose port stands at that place.
    fn stands_at(&self, core: &Core, at: usize, node: usize) -> bool
        requires { node < length self.now.streams.items }
        ensures { result ≡ stands core.now self.now.streams.items at node }
    {
        self.of_node(node) == at && is_stream(core, node)
    }

    /// Lets a stream go on with the port at a place, and says where each port stands once the stream's old one is taken out.
    pub fn exchange(&mut self, node: usize, to: usize)
        requires { node < length self.old.streams.items }
        ensures source { self.new.source ≡ without (slice_index_or self.old.streams.items node 0) self.old.source }
        ensures std_in { self.new.std_in ≡ without (slice_index_or self.old.streams.items node 0) self.old.std_in }
        ensures std_out { self.new.std_out ≡ without (slice_index_or self.old.streams.items node 0) self.old.std_out }
        ensures streams { self.new.streams.items
            ≡ map (without (slice_index_or self.old.streams.items node 0)) (slice_set self.old.streams.items node to) }
    {
        let gone = self.of_node(node);
        self.streams[node] = to;
        self.source = place_without(gone, self.source);
        self.std_in = place_without(gone, self.std_in);
        self.std_out = place_without(gone, self.std_out);
        leave(&mut self.streams, gone);
    }
}

// Where each port stands once the one at `gone` is taken out.
fn leave(places: &mut [usize], gone: usize)
    ensures { places.new ≡ map (without gone) places.old }
{
    for i in 0..places.len() {
        places[i] = place_without(gone, places[i]);
    }
}

// The place of a port once the one at `gone` is taken out.
fn place_without(gone: usize, at: usize) -> usize
    ensures { result ≡ without gone at }
{
    if at > gone { at - 1 } else { at }
}

fn is_stream(core: &Core, node: usize) -> bool
    ensures { result ≡ is_stream_at (slice_get core.now.nodes node) }
{
    match core.nodes.get(node) {
        Some(NodeC::From(_) | NodeC::To(_)) => true,
        Some(NodeC::Rules(_)) | None => false,
    }
}
