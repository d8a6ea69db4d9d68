//! Whose node a node of a union is.
ghost use Rattle.std.specs.Prelude.{◌≤◌, ◌<◌, ◌+◌, length, sum, take};

/// The place of the program that the node is of, by how many nodes each program has.
pub fn owner(sizes: &[u32], node: u32) -> u32
    requires there { node < sum sizes.now }
    requires countable { length sizes.now ≤ 4294967295 }
    ensures first { sum (take result sizes.now) ≤ node }
    ensures last { node < sum (take (result + 1) sizes.now) }
{
    let mut rest = node;
    let mut place = 0;
    for size in sizes {
        if rest < *size {
            return place;
        }
        rest -= *size;
        place += 1;
    }
    unreachable!()
}
