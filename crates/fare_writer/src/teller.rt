ghost use Rattle.std.specs.Prelude.{◌≡◌};

use fare_inbox_queue::AckPass;

/// What the writer has of a station's acknowledgement line.
pub struct Teller {
    /// Its pass of the line.
    pub pass: AckPass,
    // how many answers the line took
    pub(crate) told: u64,
}

impl Drop for Teller {
    fn drop(self) {
        let Teller { pass, told: _ } = self;
        drop(pass);
    }
}

impl Teller {
    /// One whose line took no answer yet.
    pub fn new(pass: AckPass) -> Teller
        ensures pass { result.pass ≡ pass }
        ensures told { result.told ≡ 0 }
    {
        Teller { pass, told: 0 }
    }

    /// Its pass of the line.
    pub fn into_pass(self) -> AckPass
        ensures { result ≡ self.pass }
    {
        let Teller { pass, told: _ } = self;
        pass
    }
}
