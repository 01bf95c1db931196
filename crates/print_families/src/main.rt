// Prints the request sets of each listed grid, billiard and plane and of six families of levels, one line a site, two billiard sets for q = 9,
// and the codes of refused calls.
// The file `stdout` was not written by this program. It holds Figure 7 of source 003 (billiard, q = 3, 5, 7), the two sets that source
// 000 prints for q = 9, Table 1 of source 002 (plane, p = 5), for the grid and p = 2, 3 what the papers' formulas give, and for the levels what
// request 2.1 says in words.
#![tactic(auto)]

ghost use Rattle.std.specs.Prelude.{true, ◌≡◌};
ghost use Rattle.model.specs.Sets.{member};

use family_rules::Family;
use rig::Rig;
use rig_members::each_member;
use std::io;

// The most sites of a family that is printed: those of the billiard of q = 9.
const SITES: u64 = 40;

fn main(rt: HostRuntime) -> io::Result<()> {
    print_grids(&rt)?;
    print_billiards(&rt)?;
    print_planes(&rt)?;
    print_levels(&rt)?;
    print_refusals(&rt)
}

fn print_grids(rt: &impl Print) -> io::Result<()> {
    for s in 1..=5 {
        print_family(rt, Family::Grid(s))?;
    }
    Ok(())
}

fn print_billiards(rt: &impl Print) -> io::Result<()> {
    for q in [3, 5, 7] {
        print_family(rt, Family::Billiard(q))?;
    }
    for site in [11, 34] {
        print_site(
            rt,
            Family::Billiard(9),
            site,
            families::billiard_set(9, site),
        )?;
    }
    Ok(())
}

fn print_planes(rt: &impl Print) -> io::Result<()> {
    for p in [2, 3, 5] {
        print_family(rt, Family::Plane(p))?;
    }
    Ok(())
}

fn print_levels(rt: &impl Print) -> io::Result<()> {
    for family in [
        Family::Levels(1, 1, 1),
        Family::Levels(2, 2, 2),
        Family::Levels(3, 2, 5),
        Family::Levels(1, 31, 1),
        Family::Levels(31, 1, 1),
        Family::Levels(1, 1, 31),
    ] {
        print_family(rt, family)?;
    }
    Ok(())
}

// Parameters that are not listed, and buffers of 30 entries.
fn print_refusals(rt: &impl Print) -> io::Result<()> {
    for family in [
        Family::Grid(0),
        Family::Grid(6),
        Family::Billiard(9),
        Family::Plane(4),
        Family::Levels(0, 1, 1),
        Family::Levels(4, 4, 2),
        Family::Levels(4294967296, 4294967296, 1),
        Family::Levels(3, 12297829382473034411, 1),
    ] {
        print_family(rt, family)?;
    }
    for family in [Family::Grid(2), Family::Plane(4), Family::Levels(4, 4, 2)] {
        print_short(rt, family)?;
    }
    Ok(())
}

fn print_family(rt: &impl Print, family: Family) -> io::Result<()> {
    let mut sets = [0u64; Rig::SITES];
    match families::generate(family, &mut sets) {
        Ok(size) => print_sets(rt, family, size, &sets),
        Err(refusal) => print_code(rt, family, Rig::SITES as u64, refusal.number()),
    }
}

fn print_short(rt: &impl Print, family: Family) -> io::Result<()> {
    let mut sets = [0u64; 30];
    if let Err(refusal) = families::generate(family, &mut sets) {
        print_code(rt, family, 30, refusal.number())?;
    }
    Ok(())
}

fn print_sets(
    rt: &impl Print,
    family: Family,
    size: u64,
    sets: &[u64; Rig::SITES],
) -> io::Result<()> {
    for (site, set) in (1..=size).zip(sets.iter()) {
        print_site(rt, family, site, *set)?;
    }
    Ok(())
}

// As `grid s=2 site=1: 1,2,3`.
fn print_site(rt: &impl Print, family: Family, site: u64, set: u64) -> io::Result<()> {
    print!(rt; "{family} site={site}: ")?;
    print_members(rt, set)?;
    println!(rt;)
}

// The members, ascending, with commas between them.
fn print_members(rt: &impl Print, set: u64) -> io::Result<()> {
    let mut after_another = false;
    for j in each_member(SITES, set) {
        print_member(rt, set, j, after_another)?;
        after_another = true;
    }
    Ok(())
}

// One turn: j, a member of the set.
fn print_member(rt: &impl Print, set: u64, j: u64, after_another: bool) -> io::Result<()>
    requires { member set j ≡ true }
{
    if after_another {
        print!(rt; ",")?;
    }
    print!(rt; "{j}")
}

// As `grid s=0 entries=31 code=12`.
fn print_code(rt: &impl Print, family: Family, entries: u64, code: u64) -> io::Result<()> {
    println!(rt; "{family} entries={entries} code={code}")
}
