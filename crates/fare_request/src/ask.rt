use fare_record::{Day, DeviceId, OwnerId};

/// Why a request asks for nothing.
#[derive(Clone, Copy, PartialEq, Eq, Debug)]
pub enum Mistake {
    /// It is not known to come from this machine: it names another host, it is a foreign page's, or it orders something
    /// without the header field for that.
    Foreign,
    /// There is nothing at its path.
    Nowhere,
    /// What is at its path wants the method GET.
    WantsGet,
    /// What is at its path wants the method POST.
    WantsPost,
    /// Its words are not an owner and a day, or an owner and a device.
    Words,
}

/// What a request asks of a hub, or orders.
#[derive(Clone, Copy, PartialEq, Eq, Debug)]
pub enum Ask {
    /// The page that shows the hub.
    Page,
    /// The counts, for a machine that watches.
    Metrics,
    /// Where each device's lanes stand.
    Stand,
    /// An owner's bill of a day.
    Bill { owner: OwnerId, day: Day },
    /// What each operator gets of it.
    Settle { owner: OwnerId, day: Day },
    /// Close all days that can be closed.
    Close,
    /// Retire the owner's lane of a device that will never be read out.
    Retire { owner: OwnerId, device: DeviceId },
    /// Nothing.
    Nothing(Mistake),
}

// What there is, each at its path.
#[derive(Clone, Copy, PartialEq, Eq, Debug)]
pub(crate) enum Place {
    Page,
    Metrics,
    Stand,
    Bill,
    Settle,
    Close,
    Retire,
}
