// What a site's mode says: at rest, waiting or inside, its sequence number and its failed mark.
#![tactic(auto)]

ghost use Rattle.std.specs.Prelude.{◌≡◌};
ghost use Rattle.model.specs.State.{is_resting, is_waiting, is_inside, seq_in, failed_in};

use rig::{Mode, Site};

// Whether the site is at rest.
pub fn is_resting(s: Site) -> bool
    ensures { result ≡ is_resting s.mode }
{
    matches!(s.mode, Mode::Rest)
}

// Whether the site waits.
pub fn is_waiting(s: Site) -> bool
    ensures { result ≡ is_waiting s.mode }
{
    matches!(s.mode, Mode::Waiting { .. })
}

// Whether the site is inside.
pub fn is_inside(s: Site) -> bool
    ensures { result ≡ is_inside s.mode }
{
    matches!(s.mode, Mode::Inside)
}

// The sequence number of its ask; 0 where it does not wait.
pub fn seq_in(s: Site) -> u64
    ensures { result ≡ seq_in s.mode }
{
    match s.mode {
        Mode::Waiting { seq, .. } => seq,
        _ => 0,
    }
}

// Its failed mark; false where it does not wait.
pub fn has_failed(s: Site) -> bool
    ensures { result ≡ failed_in s.mode }
{
    match s.mode {
        Mode::Waiting { failed, .. } => failed,
        _ => false,
    }
}
