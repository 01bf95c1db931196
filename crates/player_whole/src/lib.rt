// A whole text, played by `begin`, by `part` as often as the caller likes, and by `finish`: what they write, as a definition in specs/. The theorem
// is in proofs/.
#![tactic(auto)]

ghost use Rattle.std.specs.Prelude.{◌≡◌};
ghost use Rattle.player_whole.specs.Whole.{WholeText, WholeTextFrom};

// Whatever the calls are given and lent, what they and `finish` write, joined, is what the text prints that they have read, from `begin` on and
// from any other state. The claim is the contract of a function, so that it is checked with the code and shows in the list of proved functions.
// It answers 0.
pub fn whole_text() -> u8
    ensures { (result ≡ 0) × WholeText × WholeTextFrom }
{
    0
}
