// What the player makes of a printed family. The claims are the contracts of functions, so that they are checked with the code and show in the
// list of proved functions. Each answers 0.
#![tactic(auto)]

ghost use Rattle.std.specs.Prelude.{◌≡◌};
ghost use Rattle.plan_read_back.specs.ReadBack.{SitesRead, SetRead, FamilySetUp, VotesPlayed};

// Each printed line reads back as what was printed.
pub fn lines_read() -> u8
    ensures { (result ≡ 0) × SitesRead × SetRead }
{
    0
}

// A printed family by its parameters always sets up; one by votes does where setup accepts it, and else stops the player with 17.
pub fn family_set_up() -> u8
    ensures { (result ≡ 0) × FamilySetUp × VotesPlayed }
{
    0
}
