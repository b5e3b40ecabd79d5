//! The controlling bridge as a box: its control, what it has learned, its ends of the transport,
//! and what is on its way down from it.
ghost use Rattle.std.specs.Prelude.{◌≡◌, [], false, IfOk};
ghost use Rattle.exb_model.specs.Setup.{IsValid, limits_of, shape_of};
ghost use Rattle.exb_ecp.specs.StopAndWait.{new_state};
ghost use Rattle.exb_learn.specs.Calls.{empty_table};
ghost use Rattle.exb_learn.specs.Entries.{table_of};
ghost use Rattle.exb_control.specs.Controls.{first_of, state_of};
ghost use Rattle.exb_link.specs.Links.{words_of};
ghost use Rattle.exb_ecp.specs.Ends.{near_of};

use exb_control::Control;
use exb_ecp::Ends;
use exb_learn::Learned;
use exb_link::Links;
use exb_model::memory::NoMemory;
use exb_model::setup::Setup;
use std::alloc::Global;

/// The controlling bridge, and the links down, onto which it puts what it sends.
pub struct Bridge {
    /// The configuration in force, what is queued, and the change at work.
    pub control: Control,
    /// Where it saw which address last.
    pub learned: Learned,
    /// The bridge's end of the transport with each extender.
    pub near: Ends,
    /// The words on their way down to each extender.
    pub down: Links,
}

impl Drop for Bridge {
    fn drop(self) {
        let Bridge {
            control: _,
            learned: _,
            near: _,
            down: _,
        } = self;
    }
}

impl Bridge {
    /// As it begins.
    pub fn new(alloc: Global, setup: &Setup) -> Result<Bridge, NoMemory>
        requires { IsValid setup.now }
        ensures state { IfOk result (λ made. state_of made.control ≡ first_of setup.now) }
        ensures learned { IfOk result (λ made. table_of made.learned
            ≡ empty_table setup.now.ageing) }
        ensures shape { IfOk result (λ made. made.control.active.shape ≡ shape_of setup.now) }
        ensures limits { IfOk result (λ made. made.control.active.limits ≡ limits_of setup.now) }
        ensures awake { IfOk result (λ made. made.control.failed ≡ false) }
        ensures near { IfOk result (λ made. near_of made.near ≡ λ n. new_state) }
        ensures down { IfOk result (λ made. words_of made.down ≡ λ n. []) }
    {
        let near = Ends::new(alloc)?;
        let down = Links::new(alloc)?;
        let control = Control::new(alloc, setup)?;
        Ok(Bridge {
            control,
            learned: Learned::new(alloc, setup.ageing),
            near,
            down,
        })
    }

    /// The seconds that have passed.
    #[tactic(auto, unfolding(exb_learn::specs::Entries::table_of))]
    pub fn clock(&self) -> u64
        ensures { result ≡ (table_of self.now.learned).clock }
    {
        self.learned.clock()
    }
}
