// What the finder found.
ghost use Rattle.cycles.specs.Found.{closes, route_of};
ghost use Rattle.std.specs.Prelude.{◌≡◌};

use graphs::route::Route;

// What the finder found in a graph. No Result: a longest path is no failure, and a cycle neither.
#[derive(Clone, Copy, PartialEq, Eq, Debug)]
pub enum Found {
    // A cycle.
    Cycle(Route),
    // A longest path, where there is no cycle.
    Longest(Route),
}

impl Found {
    // Whether it is a cycle.
    pub fn is_cycle(&self) -> bool
        ensures { result ≡ closes self.now }
    {
        matches!(self, Found::Cycle(_))
    }

    // The cycle, or the longest path.
    pub fn route(&self) -> &Route
        ensures { result.now ≡ route_of self.now }
    {
        match self {
            Found::Cycle(route) | Found::Longest(route) => route,
        }
    }
}
