ghost use Rattle.std.specs.Prelude.{◌≡◌, ◌<◌, ◌++◌, ℕ, List, IfSome, IfNone, length, slice_index, slice_index_or};
ghost use Rattle.fare_lines.specs.Grammar.{event_keyword_text, keyword_text, scheme_keyword_text};
ghost use Rattle.fare_lines.specs.Reading.{BeginsWith, CutsAt, HasKeyword, any_keyword, may_follow};

/// What a scheme line begins with, but for that of a zone.
#[derive(Clone, Copy, PartialEq, Eq, Debug)]
pub enum SchemeKeyword {
    Owner,
    Operator,
    Station,
    Product,
    Caps,
    Hop,
    Device,
    Inbox,
    Start,
    Seal,
    Demo,
}

/// What an event line begins with.
#[derive(Clone, Copy, PartialEq, Eq, Debug)]
pub enum EventKeyword {
    Tap,
    Turn,
    Send,
    Rewind,
    State,
    Arrive,
    Draw,
    Store,
    Ack,
    DayAck,
    Answer,
    Forward,
    Fetch,
    Take,
    Close,
    Retire,
    Prune,
    Resume,
    RestartDevice,
    RestartStation,
    RestartWriter,
    RestartOwner,
    RestartHub,
    Upto,
    Count,
    Bill,
    Settle,
}

/// What a line begins with, but for that of a zone.
#[derive(Clone, Copy, PartialEq, Eq, Debug)]
pub enum Keyword {
    OfScheme(SchemeKeyword),
    OfEvent(EventKeyword),
}

impl SchemeKeyword {
    /// Its text, with the space that parts it from the first number where numbers follow.
    fn text(self) -> &'static [u8]
        ensures { result.now ≡ scheme_keyword_text self }
    {
        match self {
            SchemeKeyword::Owner => b"owner ",
            SchemeKeyword::Operator => b"operator ",
            SchemeKeyword::Station => b"station ",
            SchemeKeyword::Product => b"product ",
            SchemeKeyword::Caps => b"caps ",
            SchemeKeyword::Hop => b"hop ",
            SchemeKeyword::Device => b"device ",
            SchemeKeyword::Inbox => b"inbox ",
            SchemeKeyword::Start => b"start ",
            SchemeKeyword::Seal => b"seal",
            SchemeKeyword::Demo => b"demo ",
        }
    }
}

impl EventKeyword {
    /// Its text, with the space that parts it from the first number where numbers follow.
    fn text(self) -> &'static [u8]
        ensures { result.now ≡ event_keyword_text self }
    {
        match self {
            EventKeyword::Tap => b"tap ",
            EventKeyword::Turn => b"turn ",
            EventKeyword::Send => b"send ",
            EventKeyword::Rewind => b"rewind ",
            EventKeyword::State => b"state ",
            EventKeyword::Arrive => b"arrive ",
            EventKeyword::Draw => b"draw",
            EventKeyword::Store => b"store",
            EventKeyword::Ack => b"ack ",
            EventKeyword::DayAck => b"dayack ",
            EventKeyword::Answer => b"answer ",
            EventKeyword::Forward => b"forward ",
            EventKeyword::Fetch => b"fetch ",
            EventKeyword::Take => b"take ",
            EventKeyword::Close => b"close ",
            EventKeyword::Retire => b"retire ",
            EventKeyword::Prune => b"prune ",
            EventKeyword::Resume => b"resume ",
            EventKeyword::RestartDevice => b"restart device ",
            EventKeyword::RestartStation => b"restart station ",
            EventKeyword::RestartWriter => b"restart writer",
            EventKeyword::RestartOwner => b"restart owner ",
            EventKeyword::RestartHub => b"restart hub",
            EventKeyword::Upto => b"upto ",
            EventKeyword::Count => b"count ",
            EventKeyword::Bill => b"bill ",
            EventKeyword::Settle => b"settle ",
        }
    }
}

// The keywords by their first two letters, in each list those first that most lines have.
const OF_AC: [Keyword; 1] = [Keyword::OfEvent(EventKeyword::Ack)];

const OF_AN: [Keyword; 1] = [Keyword::OfEvent(EventKeyword::Answer)];

const OF_AR: [Keyword; 1] = [Keyword::OfEvent(EventKeyword::Arrive)];

const OF_BI: [Keyword; 1] = [Keyword::OfEvent(EventKeyword::Bill)];

const OF_CA: [Keyword; 1] = [Keyword::OfScheme(SchemeKeyword::Caps)];

const OF_CL: [Keyword; 1] = [Keyword::OfEvent(EventKeyword::Close)];

const OF_CO: [Keyword; 1] = [Keyword::OfEvent(EventKeyword::Count)];

const OF_DA: [Keyword; 1] = [Keyword::OfEvent(EventKeyword::DayAck)];

const OF_DE: [Keyword; 2] = [
    Keyword::OfScheme(SchemeKeyword::Device),
    Keyword::OfScheme(SchemeKeyword::Demo),
];

const OF_DR: [Keyword; 1] = [Keyword::OfEvent(EventKeyword::Draw)];

const OF_FE: [Keyword; 1] = [Keyword::OfEvent(EventKeyword::Fetch)];

const OF_FO: [Keyword; 1] = [Keyword::OfEvent(EventKeyword::Forward)];

const OF_HO: [Keyword; 1] = [Keyword::OfScheme(SchemeKeyword::Hop)];

const OF_IN: [Keyword; 1] = [Keyword::OfScheme(SchemeKeyword::Inbox)];

const OF_OP: [Keyword; 1] = [Keyword::OfScheme(SchemeKeyword::Operator)];

const OF_OW: [Keyword; 1] = [Keyword::OfScheme(SchemeKeyword::Owner)];

const OF_PR: [Keyword; 2] = [
    Keyword::OfEvent(EventKeyword::Prune),
    Keyword::OfScheme(SchemeKeyword::Product),
];

const OF_RE: [Keyword; 8] = [
    Keyword::OfEvent(EventKeyword::Rewind),
    Keyword::OfEvent(EventKeyword::Resume),
    Keyword::OfEvent(EventKeyword::RestartHub),
    Keyword::OfEvent(EventKeyword::RestartDevice),
    Keyword::OfEvent(EventKeyword::RestartStation),
    Keyword::OfEvent(EventKeyword::RestartWriter),
    Keyword::OfEvent(EventKeyword::RestartOwner),
    Keyword::OfEvent(EventKeyword::Retire),
];

const OF_SE: [Keyword; 3] = [
    Keyword::OfEvent(EventKeyword::Send),
    Keyword::OfEvent(EventKeyword::Settle),
    Keyword::OfScheme(SchemeKeyword::Seal),
];

const OF_ST: [Keyword; 4] = [
    Keyword::OfEvent(EventKeyword::Store),
    Keyword::OfEvent(EventKeyword::State),
    Keyword::OfScheme(SchemeKeyword::Station),
    Keyword::OfScheme(SchemeKeyword::Start),
];

const OF_TA: [Keyword; 2] = [
    Keyword::OfEvent(EventKeyword::Tap),
    Keyword::OfEvent(EventKeyword::Take),
];

const OF_TU: [Keyword; 1] = [Keyword::OfEvent(EventKeyword::Turn)];

const OF_UP: [Keyword; 1] = [Keyword::OfEvent(EventKeyword::Upto)];

/// Whether this byte may stand behind a keyword and the space that parts it from numbers: a digit or a line feed.
fn is_follower(byte: u8) -> bool
    ensures { result ≡ may_follow byte }
{
    byte == b'\n' || byte.is_ascii_digit()
}

impl Keyword {
    // All keywords whose text begins with these two letters.
    fn of_letters(first: u8, second: u8) -> &'static [Keyword]
        ensures { (k : Keyword) → slice_index (keyword_text k) 0 ≡ first → slice_index (keyword_text k) 1 ≡ second → HasKeyword result.now k }
    {
        match (first, second) {
            (b'a', b'c') => &OF_AC,
            (b'a', b'n') => &OF_AN,
            (b'a', b'r') => &OF_AR,
            (b'b', b'i') => &OF_BI,
            (b'c', b'a') => &OF_CA,
            (b'c', b'l') => &OF_CL,
            (b'c', b'o') => &OF_CO,
            (b'd', b'a') => &OF_DA,
            (b'd', b'e') => &OF_DE,
            (b'd', b'r') => &OF_DR,
            (b'f', b'e') => &OF_FE,
            (b'f', b'o') => &OF_FO,
            (b'h', b'o') => &OF_HO,
            (b'i', b'n') => &OF_IN,
            (b'o', b'p') => &OF_OP,
            (b'o', b'w') => &OF_OW,
            (b'p', b'r') => &OF_PR,
            (b'r', b'e') => &OF_RE,
            (b's', b'e') => &OF_SE,
            (b's', b't') => &OF_ST,
            (b't', b'a') => &OF_TA,
            (b't', b'u') => &OF_TU,
            (b'u', b'p') => &OF_UP,
            _ => &[],
        }
    }

    /// Its text, with the space that parts it from the first number where numbers follow.
    fn text(self) -> &'static [u8]
        ensures { result.now ≡ keyword_text self }
    {
        match self {
            Keyword::OfScheme(keyword) => keyword.text(),
            Keyword::OfEvent(keyword) => keyword.text(),
        }
    }

    /// The keyword at the front of a text that nothing, a digit or a line feed follows, and the text behind it; None
    /// where there is no such keyword.
    pub fn cut(text: &[u8]) -> Option<(Keyword, &[u8])>
        ensures found { IfSome result (λ cut. CutsAt may_follow text.now (keyword_text cut.0) cut.1.now) }
        ensures none { IfNone result ((k : Keyword) (rest : List ℕ) → BeginsWith may_follow rest → text.now ≡ keyword_text k ++ rest → ⊥) }
    {
        let [first, second, ..] = text else {
            return None;
        };
        find_keyword(Keyword::of_letters(*first, *second), text)
    }

    // What stands behind this keyword at the front of a text, if that is nothing or begins with a digit or a line feed.
    fn behind(self, text: &[u8]) -> Option<&[u8]>
        ensures found { IfSome result (λ rest. CutsAt may_follow text.now (keyword_text self) rest.now) }
        ensures none { IfNone result ((rest : List ℕ) → BeginsWith may_follow rest → text.now ≡ keyword_text self ++ rest → ⊥) }
    {
        let rest = text.strip_prefix(self.text())?;
        match rest.first() {
            Some(byte) if !is_follower(*byte) => None,
            _ => Some(rest),
        }
    }
}

// The first of the keywords that stands so at the front of the text, and the text behind it.
fn find_keyword<'a>(keywords: &[Keyword], text: &'a [u8]) -> Option<(Keyword, &'a [u8])>
    ensures found { IfSome result (λ cut. CutsAt may_follow text.now (keyword_text cut.0) cut.1.now) }
    ensures none { IfNone result ((i : ℕ) (rest : List ℕ) → i < length keywords.now → BeginsWith may_follow rest → text.now ≡ keyword_text (slice_index_or keywords.now i any_keyword) ++ rest → ⊥) }
{
    for keyword in keywords {
        if let Some(rest) = keyword.behind(text) {
            return Some((*keyword, rest));
        }
    }
    None
}
