// The grid: the set of a site is its row and its column.
#![tactic(auto)]

ghost use Rattle.std.specs.Prelude.{◌≡◌, ◌≤◌};
ghost use Rattle.rig.specs.Limits.{site_limit};
ghost use Rattle.family_grid.specs.Grid.{grid_site, grid_entry};

// An inner call: entry k of site n, the s sites of its row, then the s sites of its column.
pub fn grid_entry(s: u64, n: u64, k: u64) -> u64
    requires { (1 ≤ s) × (s ≤ site_limit) × (1 ≤ n) × (n ≤ site_limit) × (1 ≤ k) × (k ≤ site_limit) }
    ensures { result ≡ grid_entry s n k }
{
    if k <= s {
        return grid_site(s, 1 + (n - 1) / s, k);
    }
    grid_site(s, k - s, 1 + (n - 1) % s)
}

fn grid_site(s: u64, i: u64, j: u64) -> u64
    requires { (s ≤ site_limit) × (1 ≤ i) × (i ≤ site_limit) × (j ≤ site_limit) }
    ensures { result ≡ grid_site s i j }
{
    (i - 1) * s + j
}
