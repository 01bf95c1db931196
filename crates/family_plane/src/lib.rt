// The plane by its rule: the set of a site is a row of the matrices M1, M2 and so on.
#![tactic(auto)]

ghost use Rattle.std.specs.Prelude.{◌≡◌, ◌+◌, ◌≤◌};
ghost use Rattle.rig.specs.Limits.{site_limit};
ghost use Rattle.family_plane.specs.Plane.{first_matrix, generating_matrix, other_matrix, plane_entry};

// An inner call: member k of row n, by the rule.
pub fn rule_entry(p: u64, n: u64, k: u64) -> u64
    requires { (1 ≤ p) × (p ≤ 5) × (1 ≤ n) × (n ≤ site_limit) × (1 ≤ k) × (k ≤ p + 1) }
    ensures { result ≡ plane_entry p n k }
{
    if n <= p + 1 {
        return first_matrix(p, n, k);
    }
    let rest = n - p - 2;
    other_matrix(p, 2 + rest / p, 1 + rest % p, k)
}

fn first_matrix(p: u64, i: u64, j: u64) -> u64
    requires { (p ≤ site_limit) × (1 ≤ i) × (i ≤ site_limit) × (j ≤ site_limit) }
    ensures { result ≡ first_matrix p i j }
{
    if j == 1 {
        return 1;
    }
    (i - 1) * p + j
}

fn generating_matrix(p: u64, x: u64, i: u64, j: u64) -> u64
    requires { (1 ≤ p) × (2 ≤ x) × (x ≤ site_limit + 2) × (1 ≤ i) × (i ≤ site_limit) × (1 ≤ j) × (j ≤ site_limit) }
    ensures { result ≡ generating_matrix p x i j }
{
    ((x - 2) * (j - 1) + (i - 1)) % p
}

fn other_matrix(p: u64, x: u64, i: u64, j: u64) -> u64
    requires { (1 ≤ p) × (p ≤ site_limit) × (2 ≤ x) × (x ≤ site_limit + 2) × (1 ≤ i) × (i ≤ site_limit) × (1 ≤ j) × (j ≤ site_limit) }
    ensures { result ≡ other_matrix p x i j }
{
    if j == 1 {
        return x;
    }
    first_matrix(p, j, 2) + generating_matrix(p, x, i, j - 1)
}
