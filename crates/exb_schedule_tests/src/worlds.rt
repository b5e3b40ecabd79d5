//! Worlds: a topology, behind `>` steps, and in the lines below what is told. `%` stands between
//! two. `crates/exb_cases/cases.py` plays each of them over its own tree too.
use crate::world_driver::judge;

/// What is planned, frames on their way while a command is carried out, words that are lost, come
/// twice or wait, and what a fate is asked.
const CASES: &str =
    "# one announcement, Open, and a channel and a group for each port; each exchange that is over leaves one less\n\
     bridge = { ports = 1 }\n\
     extender = [{ number = 1, on = 'b1', ports = 3 }]\n\
     >planned; beat; control 1 up 0; planned; control 1 down 0; control 1 up 0; control 1 up 0; planned; control 1 down 0; control 1 down 0; control 1 up 0; control 1 up 0; tell; planned; control 1 down 0; control 1 down 0; control 1 up 0; control 1 up 0; tell; planned; control 1 down 0; control 1 down 0; control 1 up 0; control 1 up 0; tell; planned; control 1 down 0; control 1 down 0; control 1 up 0; control 1 up 0; tell; planned; control 1 down 0; control 1 down 0; control 1 up 0; control 1 up 0; tell; planned; control 1 down 0; control 1 down 0; control 1 up 0; control 1 up 0; tell; planned; control 1 down 0; control 1 down 0; control 1 up 0; control 1 up 0; tell; planned; control 1 down 0; control 1 down 0; control 1 up 0; control 1 up 0; tell; planned\n\
     planned 10\n\
     planned 9\n\
     planned 8\n\
     planned 7\n\
     up x1.1\n\
     planned 6\n\
     planned 5\n\
     up x1.2\n\
     planned 4\n\
     planned 3\n\
     planned 2\n\
     up x1.3\n\
     planned 1\n\
     planned 0\n\
     %# a change is planned as its request and its cleanup\n\
     bridge = { ports = 1 }\n\
     extender = [{ number = 1, on = 'b1', ports = 2 }]\n\
     command = [{ at = 0, op = 'vlan', vid = 1, untagged = ['x1.1'] }, { at = 0, op = 'vlan', vid = 1, untagged = ['x1.2'] }]\n\
     >settle; skip; give; planned; control 1 down 0; control 1 up 0; control 1 up 0; tell; planned; control 1 down 0; control 1 down 0; control 1 up 0; control 1 up 0; planned; settle; tell\n\
     planned 2\n\
     commit 1\n\
     planned 1\n\
     planned 0\n\
     settled\n\
     %# a second command waits until the cleanup of the first is answered\n\
     bridge = { ports = 1 }\n\
     extender = [{ number = 1, on = 'b1', ports = 2 }]\n\
     command = [{ at = 0, op = 'vlan', vid = 1, untagged = ['x1.1'] }, { at = 0, op = 'vlan', vid = 1, untagged = ['x1.2'] }]\n\
     >settle; skip; give; give; planned; control 1 down 0; control 1 up 0; control 1 up 0; tell; planned; control 1 down 0; control 1 down 0; control 1 up 0; control 1 up 0; tell; planned; control 1 down 0; control 1 down 0; control 1 up 0; control 1 up 0; tell; planned; control 1 down 0; control 1 down 0; control 1 up 0; control 1 up 0; tell; planned; settle; tell\n\
     planned 4\n\
     commit 1\n\
     planned 3\n\
     planned 2\n\
     commit 2\n\
     planned 1\n\
     planned 0\n\
     settled\n\
     %# a frame on its way when a change takes effect leaves as it was decided, and the next one by the new configuration; the cleanup waits behind it\n\
     bridge = { ports = 1 }\n\
     extender = [{ number = 1, on = 'b1', ports = 2 }]\n\
     vlan = [{ vid = 10, tagged = ['x1.1-2'] }, { vid = 20, untagged = ['x1.2'] }]\n\
     command = [{ at = 0, op = 'member', vid = 10, port = 'x1.2', kind = 'untagged' }]\n\
     >settle; skip; give; arrive x1.1 1 FFFFFFFFFFFF0200000000018100000A0800AABB; carry 1 up; control 1 down 0; control 1 up 0; control 1 up 0; counts 1; free 1 down 0; free 1 down 1; arrive x1.1 2 FFFFFFFFFFFF0200000000018100000A0800AABB; carry 1 up; settle; tell\n\
     x1 up 0 0 down 1 2\n\
     waits\n\
     waits\n\
     relay x1.1 1\n\
     commit 1\n\
     relay x1.1 2\n\
     settled\n\
     x1.2 FFFFFFFFFFFF0200000000018100000A0800AABB\n\
     x1.2 FFFFFFFFFFFF0200000000010800AABB\n\
     %# three lost words, an acknowledgement and twice an answer, are sent again\n\
     bridge = { ports = 1 }\n\
     extender = [{ number = 1, on = 'b1', ports = 2 }]\n\
     vlan = [{ vid = 10, tagged = ['x1.1-2'] }, { vid = 20, untagged = ['x1.2'] }]\n\
     command = [{ at = 0, op = 'member', vid = 10, port = 'x1.2', kind = 'untagged' }]\n\
     >settle; skip; give; control 1 down 0; lose 1 up 0; lose 1 up 0; beat; beat; beat; lose 1 up 0; settle; tell\n\
     commit 1\n\
     settled\n\
     %# a request that comes twice is acknowledged twice and answered once\n\
     bridge = { ports = 1 }\n\
     extender = [{ number = 1, on = 'b1', ports = 2 }]\n\
     vlan = [{ vid = 10, tagged = ['x1.1-2'] }, { vid = 20, untagged = ['x1.2'] }]\n\
     command = [{ at = 0, op = 'member', vid = 10, port = 'x1.2', kind = 'untagged' }]\n\
     >settle; skip; give; free 1 down 0; keep 1 down 0; counts 1; control 1 down 0; counts 1; settle; tell\n\
     free\n\
     x1 up 0 2 down 0 1\n\
     x1 up 0 3 down 0 0\n\
     commit 1\n\
     settled\n\
     %# a frame that is on its way up when its port goes down is ignored by the bridge, and a later one by the extender\n\
     bridge = { ports = 1 }\n\
     extender = [{ number = 1, on = 'b1', ports = 2 }]\n\
     command = [{ at = 0, op = 'down', port = 'x1.1' }]\n\
     >settle; skip; give; control 1 down 0; arrive x1.1 1 FFFFFFFFFFFF0200000000010800AABB; control 1 up 0; control 1 up 0; counts 1; carry 1 up; tell; settle; arrive x1.1 2 FFFFFFFFFFFF0200000000010800AABB; tell\n\
     x1 up 1 0 down 0 2\n\
     commit 1\n\
     ignore x1.1 1\n\
     settled\n\
     ignore x1.1 2\n\
     %# a fate is asked once for each control frame that a device takes in, with a trace and without\n\
     bridge = { ports = 1 }\n\
     extender = [{ number = 1, on = 'b1', ports = 2 }]\n\
     >arm 1000; settle; arrive x1.1 1 FFFFFFFFFFFF0200000000010800AABB; settle; asked\n\
     asked 25\n\
     %bridge = { ports = 2 }\n\
     extender = [{ number = 1, on = 'b1', ports = 2 }, { number = 2, on = 'x1.2', ports = 2 }]\n\
     >arm 1000; settle; arrive x1.1 1 FFFFFFFFFFFF0200000000010800AABB; settle; asked\n\
     asked 92\n\
     %bridge = { ports = 1 }\n\
     extender = [{ number = 1, on = 'b1', ports = 2 }]\n\
     vlan = [{ vid = 10, tagged = ['x1.1-2'] }]\n\
     command = [{ at = 0, op = 'member', vid = 10, port = 'x1.2', kind = 'untagged' }]\n\
     >arm 1000; settle; give; settle; arrive x1.1 1 FFFFFFFFFFFF0200000000010800AABB; settle; asked\n\
     asked 33\n\
     %bridge = { ports = 1 }\n\
     extender = [{ number = 1, on = 'b1', ports = 2 }]\n\
     >bare; arm 1000; settle; arrive x1.1 1 FFFFFFFFFFFF0200000000010800AABB; settle; asked\n\
     asked 25\n\
     %bridge = { ports = 2 }\n\
     extender = [{ number = 1, on = 'b1', ports = 2 }, { number = 2, on = 'x1.2', ports = 2 }]\n\
     >bare; arm 1000; settle; arrive x1.1 1 FFFFFFFFFFFF0200000000010800AABB; settle; asked\n\
     asked 92\n\
     %bridge = { ports = 1 }\n\
     extender = [{ number = 1, on = 'b1', ports = 2 }]\n\
     vlan = [{ vid = 10, tagged = ['x1.1-2'] }]\n\
     command = [{ at = 0, op = 'member', vid = 10, port = 'x1.2', kind = 'untagged' }]\n\
     >bare; arm 1000; settle; give; settle; arrive x1.1 1 FFFFFFFFFFFF0200000000010800AABB; settle; asked\n\
     asked 33\n";

#[test]
fn worlds_tell_what_they_must(rt: HostRuntime) {
    judge(&rt, rt.alloc(), CASES);
}
