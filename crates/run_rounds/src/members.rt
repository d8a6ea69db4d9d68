//! The programs of a union whose core is run.
ghost use Rattle.std.specs.Prelude.{◌≡◌, ◌≤◌, ◌<◌, ◌^◌, length};
ghost use Rattle.run_rounds.specs.Members.{members_before as programs_before, views};

/// A program of a union, as the report has it.
#[derive(Drop)]
pub struct Member {
    /// The line that names it, with its newline.
    pub head: Vec<u8>,
    /// How many nodes it has.
    pub nodes: u32,
}

/// How many programs come before the one that has the node.
#[cycle(members_before)]
pub fn members_before(members: &[Member], node: u32) -> u32
    requires { length members.now < 2 ^ 31 }
    ensures before { result ≡ programs_before (views members.now) node }
    ensures few { result ≤ length members.now }
{
    let Some((member, later)) = members.split_first() else {
        return 0;
    };
    if node < member.nodes {
        return 0;
    }
    1 + members_before(later, node - member.nodes)
}
