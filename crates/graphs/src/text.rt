// What is printed of a path.
ghost use Rattle.graphs.specs.Texts.{route_text};
ghost use Rattle.std.specs.Prelude.{Some};

use crate::route::Route;
use std::fmt;

// The node where the path starts, and then the slot and the node of each step, with a space between any two.
impl fmt::Display for Route {
    ghost output = { λ p. Some (route_text p) };

    fn fmt<W: fmt::Write>(&self, f: &mut fmt::Formatter<W>) -> fmt::Result {
        let start = self.start();
        write!(f, "{start}")?;
        for step in self.steps() {
            let slot = step.slot;
            let to = step.to;
            write!(f, " {slot} {to}")?;
        }
        Ok(())
    }
}
