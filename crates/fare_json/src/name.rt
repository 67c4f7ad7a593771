ghost use Rattle.std.specs.Prelude.{◌≡◌};
ghost use Rattle.fare_json.specs.Parts.{name_text};

/// What a member of an object is called.
#[derive(Clone, Copy)]
pub(crate) enum Name {
    Accounts,
    Amount,
    Closed,
    Day,
    Device,
    From,
    Kind,
    Link,
    Operator,
    Operators,
    Owner,
    Product,
    Refused,
    Retired,
    Rides,
    Route,
    Rows,
    Stated,
    Statements,
    Taken,
    Taps,
    Token,
    Total,
    Why,
}

impl Name {
    /// Its text.
    pub(crate) fn text(self) -> &'static str
        ensures { result.now ≡ name_text self }
    {
        match self {
            Name::Accounts => "accounts",
            Name::Amount => "amount",
            Name::Closed => "closed",
            Name::Day => "day",
            Name::Device => "device",
            Name::From => "from",
            Name::Kind => "kind",
            Name::Link => "link",
            Name::Operator => "operator",
            Name::Operators => "operators",
            Name::Owner => "owner",
            Name::Product => "product",
            Name::Refused => "refused",
            Name::Retired => "retired",
            Name::Rides => "rides",
            Name::Route => "route",
            Name::Rows => "rows",
            Name::Stated => "stated",
            Name::Statements => "statements",
            Name::Taken => "taken",
            Name::Taps => "taps",
            Name::Token => "token",
            Name::Total => "total",
            Name::Why => "why",
        }
    }
}
