// Callers of the player's calls: each promise follows from the contracts of those calls alone.
#![tactic(auto)]

ghost use Rattle.std.specs.Prelude.{◌≤◌, length};
ghost use Rattle.player_state.specs.State.{PlayingFits};
ghost use Rattle.player_playing.specs.Played.{LeavesPlayed, Continues};
ghost use Rattle.client_player.specs.Told.{Tells};

use player_bytes::put_word;
use player_playing::{Played, finish, part};
use player_printing::PAGE_LENGTH;
use player_state::{Playing, begin, is_over};

// What playing a whole text answers: the bytes of the text that are read, those of the output that are written, whether the run has ended,
// and whether all that the text prints is written.
#[derive(Clone, Copy)]
pub struct Told {
    pub taken: usize,
    pub written: usize,
    pub over: bool,
    pub whole: bool,
}

// An inner call: bytes cut anywhere, played as two parts. It leaves what one part leaves. Where the first is not all read the second is not begun.
pub fn two_parts(s: Playing, given: &[u8], cut: usize, out: &mut [u8]) -> Played
    requires { PlayingFits s × (cut ≤ length given.now) }
    ensures leaves_played { LeavesPlayed s given.now out result }
    ensures continues { Continues s given.now out result }
{
    let r = part(s, &given[..cut], out);
    if r.taken < cut {
        return r;
    }
    let at = r.written;
    let q = part(r.playing, &given[cut..], &mut out[at..]);
    let playing = q.playing;
    Played {
        playing,
        taken: r.taken + q.taken,
        written: at + q.written,
    }
}

// Plays a whole text.
pub fn play_text(text: &[u8], out: &mut [u8]) -> Told
    ensures { Tells text.now out.old out.new result }
{
    let r = part(begin(), text, out);
    let taken = r.taken;
    let at = r.written;
    let over = is_over(r.playing);
    if over {
        return Told {
            taken,
            written: at,
            over,
            whole: true,
        };
    }
    if taken < text.len() || out.len() - at < PAGE_LENGTH {
        return Told {
            taken,
            written: at,
            over,
            whole: false,
        };
    }
    let mut page = [0u8; PAGE_LENGTH];
    let n = finish(r.playing, &mut page);
    let end = put_word(out, at, &page[..n]);
    Told {
        taken,
        written: end,
        over,
        whole: true,
    }
}
