ghost use Rattle.std.specs.Prelude.{◌≡◌};

use fare_record::{ProductId, Record, Token};
use std::marker::Model;

/// Who pays: a product with a token that used it. Accounts stand in the order of product, then token.
#[derive(Clone, Copy, PartialEq, Eq, PartialOrd, Ord, Hash, Debug)]
pub struct Account {
    product: ProductId,
    token: Token,
}

impl Model for Account {
    ghost use Rattle.fare_cap.specs.Values.{AccountValue};

    ghost Value = { AccountValue };

    ghost view = { λ a. record { product = a.product; token = a.token } };

    ghost inverse = { λ v. record { product = v.product; token = v.token } };
}

impl Account {
    ghost use Rattle.fare_cap.specs.Accounts.{account_of};

    /// The account of a tap: its product and its token.
    pub fn of(tap: Record) -> Account
        ensures { result ≡ account_of tap }
    {
        Account {
            product: tap.tap().product(),
            token: tap.tap().token(),
        }
    }

    /// The product.
    pub fn product(self) -> ProductId
        ensures { result ≡ self.product }
    {
        self.product
    }

    /// The token.
    pub fn token(self) -> Token
        ensures { result ≡ self.token }
    {
        self.token
    }
}
