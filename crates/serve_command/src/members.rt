ghost use Rattle.std.specs.Prelude.{◌≡◌, ◌≤◌, length};
ghost use Rattle.serve_command.specs.Members.{list_of};

use server_list::{ServerList, ServerRow};

/// The list of members with these weights, in the order of their numbers from 1.
pub(crate) fn list_of(weights: &[u16]) -> ServerList
    requires { length weights.now ≤ 32 }
    ensures { result ≡ list_of weights.now }
{
    let mut list = ServerList::new();
    let mut member: u32 = 0;
    for weight in weights {
        member += 1;
        list.push(ServerRow {
            member,
            weight: *weight,
        });
    }
    list
}
