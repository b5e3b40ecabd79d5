//! Names of ports.
ghost use Rattle.std.specs.Prelude.{Some};
ghost use Rattle.exb_model.specs.Texts.{port_name};

use exb_model::port::PortId;
use std::fmt;

/// A port that prints as its name: `b1` to `b64` for the ports of the bridge, `xN.K` for port K of
/// extender N, both counted from 1.
#[derive(Clone, Copy)]
pub struct PortName(pub PortId);

impl fmt::Display for PortName {
    ghost output = { λ name. Some (port_name name.0) };

    fn fmt<W: fmt::Write>(&self, f: &mut fmt::Formatter<W>) -> fmt::Result {
        let (extender, port) = (self.0.device(), self.0.place() + 1);
        if extender == 0 {
            write!(f, "b{port}")
        } else {
            write!(f, "x{extender}.{port}")
        }
    }
}
