// Document 01 as definitions, in specs/, and what holds of every run of them, in proofs/. Every contract of the other crates cites
// the definitions; the functions below have the claims about runs as their contracts, so that these are checked
// with the code and show in the list of proved functions. Each answers 0.
#![tactic(auto)]

ghost use Rattle.std.specs.Prelude.{◌≡◌};
ghost use Rattle.model.specs.Run.{Demand3};
ghost use Rattle.model.specs.Losses.{SoundWithLosses, ShapedWithLosses};
ghost use Rattle.model.specs.Fails.{FailsName, OldFailsIdle};
ghost use Rattle.model.specs.Corollaries.{Corollaries};
ghost use Rattle.model.specs.Always.{AlwaysShaped, AlwaysLong, NumbersSmall, NineByCount, NeverStray};
ghost use Rattle.model.specs.Settling.{Settles, DeliveriesEnd, DeliveriesFew, MeasureBounded, MeasureReached, Deliverable, SettledServes};

// Demand 3: after every event of every run, at most one site is inside, every permission is in one place, and no rig is stuck.
pub fn demand_3() -> u8
    ensures { (result ≡ 0) × Demand3 }
{
    0
}

// Demand 3 also of every run in which, between events, any fail under way may lose its number; every state of them is well shaped.
pub fn demand_3_with_losses() -> u8
    ensures { (result ≡ 0) × SoundWithLosses × ShapedWithLosses }
{
    0
}

// What a fail is about: its number is that of an ask which its receiver has made, and once that ask is over, the fail changes nothing.
pub fn fails_name_asks() -> u8
    ensures { (result ≡ 0) × FailsName × OldFailsIdle }
{
    0
}

// What demand 3 alone says of the sites one by one, without counting them, and of each arbiter: two sites inside are one site; the
// permission of each arbiter is in one place; where nothing is under way and a site waits, a site is inside.
pub fn corollaries() -> u8
    ensures { (result ≡ 0) × Corollaries }
{
    0
}

// Beyond demand 3: every state of a run is well shaped, and its numbers are small; no event of a run is refused with 10, or with 13
// where its list began with 1,024 entries, or with 9 but for the count of events; no reply, yield or plain release of a run is stray.
pub fn beyond() -> u8
    ensures { (result ≡ 0) × AlwaysShaped × AlwaysLong × NumbersSmall × NineByCount × NeverStray }
{
    0
}

// No rig exchanges messages for ever: every accepted delivery makes a sum over the messages under way and the remembered inquires smaller. An ask
// or a leave adds at most 217 to it, so that a run has at most 217 accepted deliveries for each accepted one of them. In a well-shaped state the
// sum is at most 10,051, and one reaches it. There, on a list of 1,024 entries, while a message is under way its delivery is refused with 8 or 9
// alone; in a run, once none is, a site is inside or none waits.
pub fn settles() -> u8
    ensures { (result ≡ 0) × Settles × DeliveriesEnd × DeliveriesFew × MeasureBounded × MeasureReached × Deliverable × SettledServes }
{
    0
}
