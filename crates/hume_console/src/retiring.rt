//! Ports that are taken out of use.
ghost use Rattle.std.specs.Prelude.{◌≡◌, ◌+◌, ◌<◌, map, vec_len, vec_capacity};
ghost use Rattle.hume_console.specs.Hands.{Leaves};

use hume_ports::Port;

/// Moves the port at that place to the end of those that are gone. All other ports stay, in their order.
pub fn retire(ports: &mut Vec<Box<dyn Port>>, at: usize, gone: &mut Vec<Box<dyn Port>>)
    requires place { at < vec_len ports.old }
    requires room { vec_len gone.old < vec_capacity gone.old }
    ensures leaves { Leaves at (record { ports = map view ports.old.items; gone = map view gone.old.items })
        (record { ports = map view ports.new.items; gone = map view gone.new.items }) }
    ensures count { vec_len gone.new + vec_len ports.new ≡ vec_len gone.old + vec_len ports.old }
    ensures capacity { vec_capacity gone.new ≡ vec_capacity gone.old }
{
    let port = ports.remove(at);
    gone.push_reserved(port);
}
