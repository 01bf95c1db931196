// The billiard: the set of a site is the path from its location, line by line as in Figure 6 of source 000.
#![tactic(auto)]

ghost use Rattle.std.specs.Prelude.{◌≡◌, true, ◌≤◌, ◌<◌};
ghost use Rattle.family_billiard.specs.Billiard.{q_computed, billiard_size, column_of, first_site, next_site, path_site, billiard_entry, step_fits, Location};

// An inner call: site k of the path from the location of n.
pub fn billiard_entry(q: u64, n: u64, k: u64) -> u64
    requires { (q_computed q ≡ true) × (1 ≤ n) × (n ≤ billiard_size q) × (1 ≤ k) × (k ≤ q) }
    ensures { result ≡ billiard_entry q n k }
{
    let j = column_of(q, n);
    let i = 1 + (2 * n - j) / q;
    path_site(q, i, j, k - 1)
}

fn column_of(q: u64, n: u64) -> u64
    requires { (1 ≤ q) × (n ≤ billiard_size 9) }
    ensures { result ≡ column_of q n }
{
    let rest = 2 * n % q;
    if rest == 0 { q } else { rest }
}

fn path_site(q: u64, i: u64, j: u64, steps: u64) -> u64
    requires { (Location q i j) × (steps < q) }
    ensures { result ≡ path_site q i j steps }
{
    let mut x = first_site(q, i, j);
    // Not a `fold`: no plainer, as what a step needs of the site before it is the loop's invariant.
    for k in 0..steps {
        x = next_site(q, i, j, k + 1, x);
    }
    x
}

fn first_site(q: u64, i: u64, j: u64) -> u64
    requires { Location q i j }
    ensures { result ≡ first_site q i j }
{
    if i + j < q + 1 {
        return ((i + j - 2) * q + 1) / 2;
    }
    (q * q - 1) / 2 - (2 * q - i - j - 1) / 2
}

fn next_site(q: u64, i: u64, j: u64, k: u64, x: u64) -> u64
    requires { (Location q i j) × (step_fits q i j k x ≡ true) }
    ensures { result ≡ next_site q i j k x }
{
    let short = (q - 1) / 2;
    let long = (q + 1) / 2;
    let rows_below = q - i;
    if i + j < q + 1 {
        if k < j {
            return x - short;
        }
        if k <= rows_below {
            return x + long;
        }
        return x - short;
    }
    if k <= rows_below {
        return x - short;
    }
    if k < j {
        return x - long;
    }
    x - short
}
