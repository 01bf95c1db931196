// The sets of a family whose rule names the members of each site's set, as definitions in specs/, and what makes setup accept them. The claims are the
// contracts of functions, so that they are checked with the code and show in the list of proved functions. Each answers 0.
#![tactic(auto)]

ghost use Rattle.std.specs.Prelude.{◌≡◌};
ghost use Rattle.family_sets.specs.Meeting.{MeetingCodeZero, EqualAccepted};

// Sets of sites 1 to N, none of them empty, every two with a common site, get none of setup's codes 13, 1, 2 and 3.
pub fn meeting_code_zero() -> u8
    ensures { (result ≡ 0) × MeetingCodeZero }
{
    0
}

// Sets that get none of these codes and are equally large are accepted by setup.
pub fn equal_accepted() -> u8
    ensures { (result ≡ 0) × EqualAccepted }
{
    0
}
