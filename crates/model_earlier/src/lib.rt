// The version before request 2.3 as part of this one. The claims are the contract of a function, so that they are checked with the code and show in the
// list of proved functions. It answers 0.
#![tactic(auto)]

ghost use Rattle.std.specs.Prelude.{◌≡◌};
ghost use Rattle.model_earlier.specs.Claims.{EarlierShaped, EarlierEvent, EarlierCovered, EarlierUnnumbered};

// On sets of which none strictly contains another: a state that is well shaped for the version before is so for this one. An event of it is one of this version after which every fail loses its number, and so are its runs.
pub fn covered() -> u8
    ensures { (result ≡ 0) × EarlierShaped × EarlierEvent × EarlierCovered × EarlierUnnumbered }
{
    0
}
