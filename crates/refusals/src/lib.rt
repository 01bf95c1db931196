// Why an input is turned down: the reasons of document 01 and of its requests, each with its number.
#![tactic(auto)]

ghost use Rattle.std.specs.Prelude.{◌≡◌};
ghost use Rattle.refusals.specs.Numbers.{number_of};

// Callers and printed lines know a reason by its number.
#[derive(Clone, Copy, PartialEq, Eq)]
pub enum Refusal {
    // N is not 1 to 31.
    SiteCount = 1,
    // A set is empty or names a site outside 1 to N.
    FaultySet = 2,
    // Two sets share no site.
    SetsApart = 3,
    // A named site is outside 1 to N.
    UnknownSite = 4,
    // An ask by a site that is not at rest.
    NotResting = 5,
    // A leave by a site that is not inside.
    NotInside = 6,
    // A delivery where nothing is under way from the one site to the other.
    NothingSent = 7,
    // The list of messages would be too long.
    ListFull = 8,
    // The accepted events are spent, or a number would be too large.
    LimitReached = 9,
    // The stored state is misshapen.
    Misshapen = 10,
    // A line is not of its form, comes at the wrong place, or is lacking.
    Malformed = 11,
    // A family's parameter is not listed.
    Unlisted = 12,
    // A lent buffer is not as long as it must be.
    WrongLength = 13,
    // A text is no state's.
    NotAState = 14,
    // A lent buffer is too short for a text.
    ShortBuffer = 15,
    // A vote is too large, or all are 0.
    FaultyVotes = 16,
    // One set strictly contains another.
    NestedSets = 17,
}

impl Refusal {
    // Its number.
    pub fn number(self) -> u64
        ensures { result ≡ number_of self }
    {
        self as u64
    }
}
