// The player's text up to its first event: the line `sites=` and the lines `set=`.
#![tactic(auto)]

ghost use Rattle.std.specs.Prelude.{◌<◌, ◌≤◌};
ghost use Rattle.rig.specs.Limits.{site_limit};
ghost use Rattle.player_text.specs.declared.Stage.TheVariants.{Size, Sets};
ghost use Rattle.player_text.specs.Player.{size_in, set_in, on_size, all_given, on_set};
ghost use Rattle.player_text.specs.Calls.{BeforeEvents};

use player_grammar::Line;
use player_printing::Page;
use player_text::{Player, Said, Stage, one_more, set_in, size_in, stop};
use rig::Rig;
use setup::setup;
use setup_faults::fault_line;

// The first line.
pub fn on_size(p: Player, page: &mut Page, m: Option<Line>) -> Said
    ensures { BeforeEvents Size (λ t. on_size t (size_in m)) p page.old page.new result }
{
    let place = one_more(p.line);
    let Some(n) = size_in(m) else {
        return stop(p, page, 11, place);
    };
    if n < 1 {
        return stop(p, page, 1, place);
    }
    if n > Rig::SITES as u64 {
        return stop(p, page, 1, place);
    }
    let player = Player {
        stage: Stage::Sets,
        line: place,
        size: n,
        given: 0,
        ..p
    };
    Said { player, printed: 0 }
}

// All sets are there. The run begins, or ends with 2, 3 or 17.
fn all_given(p: Player, page: &mut Page, sets: [u64; Rig::SITES]) -> Said
    requires { p.size ≤ site_limit }
    ensures { BeforeEvents Sets (λ t. all_given t sets) p page.old page.new result }
{
    let rig = match setup(p.size, &sets) {
        Ok(rig) => rig,
        Err(refusal) => return stop(p, page, refusal.number(), fault_line(p.size, &sets)),
    };
    let place = one_more(p.line);
    let player = Player {
        stage: Stage::Events,
        line: place,
        given: p.size,
        sets,
        rig,
        count: 0,
        tested: false,
        ..p
    };
    Said { player, printed: 0 }
}

// An inner call: one of the N lines behind the first.
pub fn on_set(p: Player, page: &mut Page, m: Option<Line>) -> Said
    requires { (p.size ≤ site_limit) × (p.given < p.size) }
    ensures { BeforeEvents Sets (λ t. on_set t (set_in m)) p page.old page.new result }
{
    let place = one_more(p.line);
    let Some(set) = set_in(m) else {
        return stop(p, page, 11, place);
    };
    let mut sets = p.sets;
    sets[p.given as usize] = set;
    let given = p.given + 1;
    if given >= p.size {
        return all_given(p, page, sets);
    }
    let player = Player {
        stage: Stage::Sets,
        line: place,
        given,
        sets,
        ..p
    };
    Said { player, printed: 0 }
}
