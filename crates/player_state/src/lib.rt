// The player's own state between two parts of a text.
#![tactic(auto)]

ghost use Rattle.std.specs.Prelude.{◌≡◌, []};
ghost use Rattle.list_rows.specs.Rows.{ZeroPast};
ghost use Rattle.list_rows.specs.State.{stored};
ghost use Rattle.player_text.specs.Calls.{FitsEvents};
ghost use Rattle.player_state.specs.State.{known, cut_line, PlayingFits, first_playing, resumed, resumed_playing, over_at};

use list_rows::Rows;
use player_cuts::LINE_ROOM;
use player_text::{Player, Stage};
use rig::{Message, Rig, Tables};

// The player with all that it needs between two parts of a text: what it knows, the rig's tables, its list of messages, and the bytes
// of the line that the end of a part cut. Nobody outside the player makes or changes one.
#[derive(Clone, Copy)]
pub struct Playing {
    player: Player,
    tables: Tables,
    list: Rows,
    line: [u8; LINE_ROOM],
    held: usize,
}

// What the player knows of its text, with its rig and how many messages are under way.
pub fn player_of(s: Playing) -> Player
    ensures { result ≡ s.player }
{
    s.player
}

// Two fields, and a state made of its fields. Only these three functions read an array of arrays in a state or write one out as a
// literal: the borrow checker covers neither the tables' field nor the literal, and the proofs of `tables_of` and `made_of` are by hand.
pub fn tables_of(s: Playing) -> Tables
    ensures { result ≡ s.tables }
{
    s.tables
}

pub fn list_of(s: Playing) -> Rows
    ensures { result ≡ s.list }
{
    s.list
}

fn made_of(
    player: Player,
    tables: Tables,
    list: Rows,
    line: [u8; LINE_ROOM],
    held: usize,
) -> Playing
    ensures { result ≡ record { player = player; tables = tables; list = list; line = line; held = held } }
{
    Playing {
        player,
        tables,
        list,
        line,
        held,
    }
}

// The bytes of the line that the end of a part cut, and how many of them are held.
pub fn line_of(s: Playing) -> [u8; LINE_ROOM]
    ensures { result ≡ s.line }
{
    s.line
}

pub fn held_of(s: Playing) -> usize
    ensures { result ≡ s.held }
{
    s.held
}

// An inner call: a state made of its fields, which belong together.
pub fn state_of(
    player: Player,
    tables: Tables,
    list: Rows,
    line: [u8; LINE_ROOM],
    held: usize,
) -> Playing
    requires { PlayingFits (record { player = player; tables = tables; list = list; line = line; held = held }) }
    ensures { result ≡ record { player = player; tables = tables; list = list; line = line; held = held } }
{
    made_of(player, tables, list, line, held)
}

// Before the first line.
pub fn begin() -> Playing
    ensures value { result ≡ first_playing }
    ensures playing_fits { PlayingFits result }
{
    let player = player_text::begin();
    let tables = Rig::blank();
    let list = [[0u64; Message::FIELDS]; Rig::MESSAGES];
    let line = [0u8; LINE_ROOM];
    made_of(player, tables, list, line, 0)
}

// An inner call: before the first line of a text that goes on from a state: lines of events alone. The state need not be one of a run. Where
// `tested`, it and each later one is tested before an event; else it is one on which no event is refused with 10, and so is each later one.
pub fn going_on(rig: Rig, tables: &Tables, list: &Rows, count: usize, tested: bool) -> Playing
    requires { FitsEvents tested (stored rig tables.now list.now count) × ZeroPast count list.now }
    ensures value { result ≡ resumed_playing rig tables.now list.now count tested }
    ensures result_value { (known result ≡ resumed (stored rig tables.now list.now count)) × (cut_line result ≡ []) × PlayingFits result }
{
    let sets = rig.sets;
    let player = Player {
        stage: Stage::Events,
        line: 0,
        step: 0,
        size: rig.size,
        given: rig.size,
        sets,
        rig,
        count,
        tested,
    };
    let line = [0u8; LINE_ROOM];
    made_of(player, *tables, *list, line, 0)
}

// The run has ended: no later line is played.
pub fn is_over(s: Playing) -> bool
    ensures { result ≡ over_at s.player.stage }
{
    match s.player.stage {
        Stage::Size | Stage::Sets => false,
        Stage::Events => false,
        Stage::Over => true,
    }
}
