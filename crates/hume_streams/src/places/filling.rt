ghost use Rattle.std.specs.Prelude.{◌≡◌, ◌<◌, ◌≤◌, length, map, [], ◌∷◌, IsOk};
ghost use Rattle.hume_base.specs.Sizes.{size_of, HaveTheirSizes};
ghost use Rattle.hume_text.specs.Bounds.{IsPrintable};
ghost use Rattle.hume_text.specs.Names.{HaveNames};
ghost use Rattle.hume_ports.specs.Ports.{names, ForNameAt, StepAt, Untouched};
ghost use Rattle.hume_ports.specs.Delivery.{Roomy};
ghost use Rattle.hume_streams.specs.Queues.{queue_view};
ghost use Rattle.hume_streams.specs.Fills.{Fills};
ghost use Rattle.hume_streams.specs.places.FillsOfPorts.{FillsFrom, NoReadFails};

use crate::{FillError, InQueue};
use hume_base::{Ty, Types};
use hume_ports::Port;

/// Fills the queue from the port at that place, until it holds as many values as are wanted.
pub fn fill_at(
    queue: &mut InQueue,
    types: &Types,
    ty: &Ty,
    ports: &mut [Box<dyn Port>],
    at: usize,
    want: u32,
) -> Result<(), FillError>
    requires place { at < length ports.old }
    requires sizes { HaveTheirSizes types.now }
    requires names { HaveNames types.now }
    requires printable { IsPrintable types.now ty.now }
    requires own_type { size_of types.now ty.now ≡ (queue_view queue.old).width }
    requires span { want ≤ (queue_view queue.old).span }
    ensures step { StepAt (map view ports.old) (map view ports.new) at (λ before after.
        Fills types.now ty.now want (queue_view queue.old) (queue_view queue.new) before after result) }
    ensures idle { want ≤ length (queue_view queue.old).values → (queue_view queue.new ≡ queue_view queue.old)
        × (map view ports.new ≡ map view ports.old) × IsOk result }

    ensures fills { ForNameAt at (map view ports.old) (λ name.
        FillsFrom types.now ty.now want (queue_view queue.old) (queue_view queue.new) name
        (map view ports.old) (map view ports.new) result) }
    ensures roomy { Roomy (map view ports.old) [] → NoReadFails result }

    ensures same_names { names (map view ports.new) ≡ names (map view ports.old) }
    ensures untouched { ForNameAt at (map view ports.old) (λ name.
        Untouched (name ∷ []) (map view ports.old) (map view ports.new)) }
{
    queue.fill(types, ty, &mut ports[at], want)
}
