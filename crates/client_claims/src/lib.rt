// Callers of the functions whose contracts are the claims: what they promise follows from those contracts alone. Each answers 0.
#![tactic(auto)]

ghost use Rattle.std.specs.Prelude.{◌≡◌, ◌≤◌, ◌<◌};
ghost use Rattle.rig_members.specs.Walk.{word_bits, within, members_in};
ghost use Rattle.client_claims.specs.Claims.{OneHolder, CodesOfRuns, NumbersOfRuns, ReplyTaken, DeliveriesServe, FailsGiven, LaterAskKept, CutOnce};

// Demand 3: who holds an arbiter's permission.
pub fn holders() -> u8
    ensures { (result ≡ 0) × OneHolder }
{
    model::demand_3()
}

// Beyond demand 3: codes, numbers and replies.
pub fn beyond() -> u8
    ensures { (result ≡ 0) × CodesOfRuns × NumbersOfRuns × ReplyTaken }
{
    model::beyond()
}

// Deliveries alone, from a state of a run: few are accepted, and a message under way is refused for a limit alone; once none is under way, a site
// is inside or none waits.
pub fn deliveries() -> u8
    ensures { (result ≡ 0) × DeliveriesServe }
{
    model::settles();
    model::beyond()
}

// Request 2.3: fails and the asks that they answer.
pub fn fails() -> u8
    ensures { (result ≡ 0) × FailsGiven × LaterAskKept }
{
    model::fails_name_asks()
}

// A text in two parts.
pub fn cut_once() -> u8
    ensures { (result ≡ 0) × CutOnce }
{
    player_parts::cuts_agree()
}

// An inner call: how many turns a walk of the members among the sites 1 to n has, one for each member.
pub fn turns(n: u64, set: u64) -> usize
    requires { n < word_bits }
    ensures { result ≡ members_in (within n set) }
{
    rig_members::each_member(n, set).count()
}
