// Runs with breaks, in which the state is saved and read back. The functions below have the claims about them as their contracts. Each answers 0.
#![tactic(auto)]

ghost use Rattle.std.specs.Prelude.{◌≡◌};
ghost use Rattle.save_runs.specs.Breaks.{SoundWithBreaks, BreaksUnseen, BreaksTaken, LinesKept};
ghost use Rattle.save_runs.specs.Update.{EarlierRead, UpdateSound};

// Demand 3 of runs with breaks: after every event and every break, at most one site is inside, every permission is in one place, and no rig is stuck.
pub fn sound_with_breaks() -> u8
    ensures { (result ≡ 0) × SoundWithBreaks }
{
    0
}

// Every text of the version before request 2.3 is read, and written back as it is, but for sets that setup now refuses with 17. Where it was saved in a
// run, with breaks, demand 3 holds of every run from there.
pub fn update_sound() -> u8
    ensures { (result ≡ 0) × EarlierRead × UpdateSound }
{
    0
}

// A break changes no table, no message under way and no code, and no line that is printed after it. None of a run is refused but for a buffer that
// is too short or a lent list of another length.
pub fn breaks_unseen() -> u8
    ensures { (result ≡ 0) × BreaksUnseen × BreaksTaken × LinesKept }
{
    0
}
