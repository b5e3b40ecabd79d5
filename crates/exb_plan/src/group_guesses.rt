//! Guesses of groups. Parts that follow each other below a bridge port have mostly the same set,
//! and parts are looked for more than once.
ghost use Rattle.std.specs.Prelude.{◌≡◌, ◌≤◌, ◌<◌, IfSome};
ghost use Rattle.exb_model.specs.Ports.{ports_of};
ghost use Rattle.exb_numbers.specs.Groups.{group_of};

use exb_control_spec::SetAt;
use exb_numbers::Groups;
use std::alloc::Global;

/// The groups that were found for parts in their order, 0 for one without a group, and the last one
/// by the number of the bridge port.
#[derive(Drop)]
pub(crate) struct Guesses {
    found: Vec<u16>,
    /// The place of the part that is looked for next.
    next: usize,
    last: [u16; 256],
}

impl Guesses {
    /// None was found.
    pub(crate) fn new(alloc: Global) -> Guesses {
        Guesses {
            found: Vec::new(alloc),
            next: 0,
            last: [0; 256],
        }
    }

    /// The same parts are looked for once more, from the first one on.
    pub(crate) fn again(&mut self) {
        self.next = 0;
    }

    /// The next part is left out.
    pub(crate) fn skip(&mut self) {
        self.next = self.next.wrapping_add(1);
    }

    /// The group of a part's set among those of its bridge port; None exactly where it has none.
    pub(crate) fn find(&mut self, groups: &Groups, part: &SetAt) -> Option<u16>
        ensures value { result ≡ group_of groups.now (ports_of part.now.set) }
        ensures range { IfSome result (λ g. (4096 ≤ g) × (g < 16384)) }
    {
        let guess = self.guess(part.bridge_port);
        let found = groups.find_near(&part.set, guess);
        self.note(part.bridge_port, found);
        found
    }

    // The group that the next part may have.
    fn guess(&self, bridge_port: u8) -> u16 {
        match self.found.get(self.next) {
            Some(group) => *group,
            None => self.last[bridge_port as usize],
        }
    }

    // Keeps the group that the next part has. Where there is no memory a later search takes longer.
    fn note(&mut self, bridge_port: u8, found: Option<u16>) {
        let group = found.unwrap_or(0);
        if group != 0 {
            self.last[bridge_port as usize] = group;
        }
        if self.next < self.found.len() {
            self.found[self.next] = group;
        } else {
            let _ = self.found.push(group);
        }
        self.skip();
    }
}
