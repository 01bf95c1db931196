// The plane with its constant table: for p = 5 the members are read from it.
#![tactic(auto)]

ghost use Rattle.std.specs.Prelude.{◌≡◌, ◌+◌, ◌≤◌};
ghost use Rattle.family_plane.specs.Plane.{plane_size, plane_entry};
ghost use Rattle.family_plane_table.specs.Table.{plane_table};

use family_plane::rule_entry;

// The plane of p = 5, row by row: six numbers a row, six rows of the matrix M1, then five rows of each other.
const PLANE5: [u64; 186] = [
    1, // M1
    2, 3, 4, 5, 6, 1, 7, 8, 9, 10, 11, 1, 12, 13, 14, 15, 16, 1, 17, 18, 19, 20, 21, 1, 22, 23, 24,
    25, 26, 1, 27, 28, 29, 30, 31, 2, // M2
    7, 12, 17, 22, 27, 2, 8, 13, 18, 23, 28, 2, 9, 14, 19, 24, 29, 2, 10, 15, 20, 25, 30, 2, 11,
    16, 21, 26, 31, 3, // M3
    7, 13, 19, 25, 31, 3, 8, 14, 20, 26, 27, 3, 9, 15, 21, 22, 28, 3, 10, 16, 17, 23, 29, 3, 11,
    12, 18, 24, 30, 4, // M4
    7, 14, 21, 23, 30, 4, 8, 15, 17, 24, 31, 4, 9, 16, 18, 25, 27, 4, 10, 12, 19, 26, 28, 4, 11,
    13, 20, 22, 29, 5, // M5
    7, 15, 18, 26, 29, 5, 8, 16, 19, 22, 30, 5, 9, 12, 20, 23, 31, 5, 10, 13, 21, 24, 27, 5, 11,
    14, 17, 25, 28, 6, // M6
    7, 16, 20, 24, 28, 6, 8, 12, 21, 25, 29, 6, 9, 13, 17, 26, 30, 6, 10, 14, 18, 22, 31, 6, 11,
    15, 19, 23, 27,
];

// An inner call: member k of row n. Those for p = 5 are in the table; those for p = 2 and 3 follow the rule.
pub fn plane_entry(p: u64, n: u64, k: u64) -> u64
    requires { (1 ≤ p) × (p ≤ 5) × (1 ≤ n) × (n ≤ plane_size p) × (1 ≤ k) × (k ≤ p + 1) }
    ensures { result ≡ plane_entry p n k }
{
    if p == 5 {
        return plane5_entry(n, k);
    }
    rule_entry(p, n, k)
}

fn plane5_entry(n: u64, k: u64) -> u64
    requires { (1 ≤ n) × (n ≤ plane_size 5) × (1 ≤ k) × (k ≤ 6) }
    ensures { result ≡ plane_entry 5 n k }
{
    let table = plane5();
    table[((n - 1) * 6 + (k - 1)) as usize]
}

// The table equals the rule, at each of its places.
fn plane5() -> [u64; 186]
    ensures { result ≡ plane_table }
{
    PLANE5
}
