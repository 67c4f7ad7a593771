ghost use Rattle.std.specs.Prelude.{◌≡◌, ◌≤◌};

use crate::{Day, Moment, ProductId, Token};
use std::marker::Model;

/// A tap on a validator: the product and the token that were used, the moment, its traffic day, and the route on which
/// it was made.
#[derive(Clone, Copy, PartialEq, Eq, Debug)]
pub struct Tap {
    // The long numbers first, which leaves no room unused between the fields.
    token: Token,
    moment: Moment,
    product: ProductId,
    day: Day,
    route: u16,
}

impl Model for Tap {
    ghost use Rattle.fare_record.specs.Values.{TapValue};

    ghost Value = { TapValue };

    ghost view = { λ a. record { product = a.product; token = a.token; moment = a.moment; day = a.day; route = a.route } };

    ghost inverse = { λ v. record { product = v.product; token = v.token; moment = v.moment; day = v.day; route = v.route } };
}

impl Tap {
    /// The tap with these parts: route 0 where none is known.
    pub fn new(product: ProductId, token: Token, moment: Moment, day: Day, route: u16) -> Tap
        ensures { result ≡ record { product = product; token = token; moment = moment; day = day; route = route } }
    {
        Tap {
            product,
            token,
            moment,
            day,
            route,
        }
    }

    /// The product that was used.
    pub fn product(self) -> ProductId
        ensures { result ≡ self.product }
    {
        self.product
    }

    /// What the traveller tapped with.
    pub fn token(self) -> Token
        ensures { result ≡ self.token }
    {
        self.token
    }

    /// When, in seconds since 1970-01-01T00:00:00Z.
    pub fn moment(self) -> Moment
        ensures { result ≡ self.moment }
    {
        self.moment
    }

    /// The traffic day of that moment, in days since 1970-01-01.
    pub fn day(self) -> Day
        ensures { result ≡ self.day }
    {
        self.day
    }

    /// The route on which it was made, by its operator's number: 0 where none is known.
    pub fn route(self) -> u16
        ensures value { result ≡ self.route }
        ensures valid { result ≤ 65535 }
    {
        self.route
    }
}
