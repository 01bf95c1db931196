// A family of request sets by its rule: the grid, the billiard, the plane and the levels.
#![tactic(auto)]

ghost use Rattle.std.specs.Prelude.{◌≡◌, true, ◌≤◌, Some};
ghost use Rattle.family_rules.specs.Family.{listed, computed, size_of, width_of, entry, has_site, set_at, EquallyLarge, FamilyAccepted};
ghost use Rattle.family_rules.specs.Text.{family_text};

use family_billiard::billiard_entry;
use family_grid::grid_entry;
use family_levels::{levels_entry, sides_listed};
use family_plane_table::plane_entry;
use rig_members::with_member;
use std::fmt;

// A family with its parameters: the grid's side s, the billiard's q, the plane's p, the rows, bays and levels of the levels.
#[derive(Clone, Copy)]
pub enum Family {
    Grid(u64),
    Billiard(u64),
    Plane(u64),
    Levels(u64, u64, u64),
}

// As `grid s=2`.
impl fmt::Display for Family {
    ghost output = { λ family. Some (family_text family) };

    fn fmt<W: fmt::Write>(&self, f: &mut fmt::Formatter<W>) -> fmt::Result {
        match *self {
            Family::Grid(s) => write!(f, "grid s={s}"),
            Family::Billiard(q) => write!(f, "billiard q={q}"),
            Family::Plane(p) => write!(f, "plane p={p}"),
            Family::Levels(a, b, c) => write!(f, "levels a={a} b={b} c={c}"),
        }
    }
}

// Whether the parameters are listed.
pub fn is_listed(family: Family) -> bool
    ensures { result ≡ listed family }
{
    match family {
        Family::Grid(s) => 1 <= s && s <= 5,
        Family::Billiard(q) => q == 3 || (q == 5 || q == 7),
        Family::Plane(p) => p == 2 || (p == 3 || p == 5),
        Family::Levels(a, b, c) => sides_listed(a, b, c),
    }
}

// An inner call: the set of site n; 0 for a number that is no site.
pub fn set_at(family: Family, n: u64) -> u64
    requires { computed family ≡ true }
    ensures { result ≡ set_at family n }
{
    if 1 <= n && n <= size_of(family) {
        site_set(family, n)
    } else {
        0
    }
}

// The set of a site, a bit for each member.
fn site_set(family: Family, n: u64) -> u64
    requires { (computed family ≡ true) × (1 ≤ n) × (n ≤ size_of family) }
    ensures { result ≡ set_at family n }
{
    let size = size_of(family);
    let mut set = 0;
    // Not a `fold`: no plainer, as that no later site is in the set so far is the loop's invariant.
    for m in 0..size {
        if has_site(family, n, m + 1) {
            set = with_member(set, m + 1);
        }
    }
    set
}

fn has_site(family: Family, n: u64, m: u64) -> bool
    requires { (computed family ≡ true) × (1 ≤ n) × (n ≤ size_of family) }
    ensures { result ≡ has_site family n m }
{
    (0..width_of(family)).any(|k| m == entry(family, n, k + 1))
}

// An inner call: the number of sites.
pub fn size_of(family: Family) -> u64
    requires { computed family ≡ true }
    ensures { result ≡ size_of family }
{
    match family {
        Family::Grid(s) => s * s,
        Family::Billiard(q) => (q * q - 1) / 2,
        Family::Plane(p) => p * (p + 1) + 1,
        Family::Levels(a, b, c) => a * b * c,
    }
}

fn width_of(family: Family) -> u64
    requires { computed family ≡ true }
    ensures { result ≡ width_of family }
{
    match family {
        Family::Grid(s) => s + s,
        Family::Billiard(q) => q,
        Family::Plane(p) => p + 1,
        Family::Levels(a, b, c) => a * b + c,
    }
}

fn entry(family: Family, n: u64, k: u64) -> u64
    requires { (computed family ≡ true) × (1 ≤ n) × (n ≤ size_of family) × (1 ≤ k) × (k ≤ width_of family) }
    ensures { result ≡ entry family n k }
{
    match family {
        Family::Grid(s) => grid_entry(s, n, k),
        Family::Billiard(q) => billiard_entry(q, n, k),
        Family::Plane(p) => plane_entry(p, n, k),
        Family::Levels(a, b, c) => levels_entry(a, b, n, k),
    }
}

// All sets of one family are equally large, and setup accepts them. The claims are the contract of a function, so that they are checked with the code and show in
// the list of proved functions. It answers 0.
pub fn families_accepted() -> u8
    ensures { (result ≡ 0) × EquallyLarge × FamilyAccepted }
{
    0
}
