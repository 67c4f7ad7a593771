/// What an operator gets for its taps of a day on one route.
#[derive(Clone, Copy, PartialEq, Eq, Debug)]
pub struct RouteShare {
    /// The route's number, or 0 for the taps whose route is not known.
    pub route: u16,
    /// How many taps of the day its devices took there.
    pub taps: u64,
    /// The sum of their charges, in pence.
    pub amount: u128,
}
