// The levels: the set of a site is its level, and the sites of its row and bay on every level.
#![tactic(auto)]

ghost use Rattle.std.specs.Prelude.{◌≡◌, ◌+◌, ◌≤◌};
ghost use Rattle.rig.specs.Limits.{site_limit};
ghost use Rattle.family_sets.specs.Meeting.{SiteTo};
ghost use Rattle.family_levels.specs.Levels.{sides_listed, levels_site, level_of, row_of, bay_of, levels_entry, LevelFits};
ghost use Rattle.family_levels.specs.Levels.{SitesPlaced, PlacesNumbered, TakesLevelAndBay, LevelsMeet, LevelsEqual};

use rig::Rig;
use rig_reads::is_site;

// Whether the sides are listed. Only sides that are in the range of a site are multiplied, so that no product passes 64 bits.
pub fn sides_listed(a: u64, b: u64, c: u64) -> bool
    ensures { result ≡ sides_listed a b c }
{
    let most = Rig::SITES as u64;
    [a, b, c].iter().all(|&side| is_site(most, side)) && a * b * c <= most
}

// An inner call: entry k of site n, the a × b sites of its level, then the sites of its row and bay.
pub fn levels_entry(a: u64, b: u64, n: u64, k: u64) -> u64
    requires { LevelFits a b × SiteTo site_limit n × (1 ≤ k) × (k ≤ site_limit + 1) }
    ensures { result ≡ levels_entry a b n k }
{
    if k <= a * b {
        return levels_site(a, b, row_of(a, b, k), bay_of(a, b, k), level_of(a, b, n));
    }
    levels_site(a, b, row_of(a, b, n), bay_of(a, b, n), k - a * b)
}

fn level_of(a: u64, b: u64, n: u64) -> u64
    requires { LevelFits a b × SiteTo site_limit n }
    ensures { result ≡ level_of a b n }
{
    1 + (n - 1) / (a * b)
}

fn row_of(a: u64, b: u64, n: u64) -> u64
    requires { LevelFits a b × SiteTo site_limit n }
    ensures { result ≡ row_of a b n }
{
    1 + (n - 1) % (a * b) / b
}

fn bay_of(a: u64, b: u64, n: u64) -> u64
    requires { LevelFits a b × SiteTo site_limit n }
    ensures { result ≡ bay_of a b n }
{
    1 + (n - 1) % (a * b) % b
}

fn levels_site(a: u64, b: u64, row: u64, bay: u64, level: u64) -> u64
    requires { LevelFits a b × SiteTo site_limit row × SiteTo site_limit bay × SiteTo site_limit level }
    ensures { result ≡ levels_site a b row bay level }
{
    (level - 1) * (a * b) + (row - 1) * b + bay
}

// What holds for all sides of at least 1 is the contract of functions, so that it is checked with the code and shows in the list of proved
// functions. Each answers 0. Every site has one row, bay and level.
pub fn levels_numbered() -> u8
    ensures { (result ≡ 0) × SitesPlaced × PlacesNumbered }
{
    0
}

// A set has the sites that the request names, and no other.
pub fn levels_taken() -> u8
    ensures { (result ≡ 0) × TakesLevelAndBay }
{
    0
}

// Every two sets meet.
pub fn levels_meet() -> u8
    ensures { (result ≡ 0) × LevelsMeet }
{
    0
}

// All sets are equally large.
pub fn levels_equal() -> u8
    ensures { (result ≡ 0) × LevelsEqual }
{
    0
}
