// A text of the player that arrives in parts, cut anywhere: what the parts print, as definitions in specs/. The laws that a program's
// loop cites, and the theorem that the cuts change nothing, are in proofs/.
#![tactic(auto)]

ghost use Rattle.std.specs.Prelude.{◌≡◌};
ghost use Rattle.player_parts.specs.Parts.{CutsAgree};

// However a text is cut into parts, what the parts print, joined, is what the text prints. The claim is the contract of a function, so that it
// is checked with the code and shows in the list of proved functions. It answers 0.
pub fn cuts_agree() -> u8
    ensures { (result ≡ 0) × CutsAgree }
{
    0
}
