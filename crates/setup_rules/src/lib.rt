// What setup asks of each request set, as rules, and whether a set keeps one.
#![tactic(auto)]

ghost use Rattle.std.specs.Prelude.{◌≡◌, true, not, ◌&&◌, ℕ, ◌<◌, ◌≤◌, ◌+◌, ◌^◌, length};
ghost use Rattle.rig.specs.Limits.{site_limit};
ghost use Rattle.model.specs.Sets.{names, meet, nested};
ghost use Rattle.model.specs.Setup.{all_name};
ghost use Rattle.setup_rules.specs.Rules.{pair_keeps, earlier_keep, keeps_rule, MayCompare};

// Not to be empty and to name no site outside 1 to `size`; to share a site with each earlier set; neither to contain strictly an earlier set nor to be
// contained strictly in one; and the last two together.
#[derive(Clone, Copy)]
pub enum Rule {
    Names,
    Meets,
    Unnested,
    Fits,
}

// The set is not empty, and names no site outside 1 to `size`.
fn names_sites(size: u64, set: u64) -> bool
    requires { size ≤ site_limit }
    ensures { result ≡ names size set }
{
    set != 0 && set >> size == 0
}

// One of two sets strictly contains the other.
fn are_nested(a: u64, b: u64) -> bool
    ensures { (n : ℕ) → a < 2 ^ n → b < 2 ^ n → result ≡ nested n a b }
{
    let common = a & b;
    a != b && (common == a || common == b)
}

// Two sets share a site, and neither strictly contains the other.
fn fit(a: u64, b: u64) -> bool
    ensures { (n : ℕ) → a < 2 ^ n → b < 2 ^ n → result ≡ meet n a b && not (nested n a b) }
{
    a & b != 0 && !are_nested(a, b)
}

// Two sets are as the rule asks.
fn pair_keeps(rule: Rule, a: u64, b: u64) -> bool
    ensures { (n : ℕ) → a < 2 ^ n → b < 2 ^ n → result ≡ pair_keeps rule n a b }
{
    match rule {
        Rule::Names => true,
        Rule::Meets => a & b != 0,
        Rule::Unnested => !are_nested(a, b),
        Rule::Fits => fit(a, b),
    }
}

// The set at index k and each one before it are as the rule asks.
fn earlier_keep(rule: Rule, size: u64, sets: &[u64], k: u64) -> bool
    requires { (size ≤ site_limit) × (length sets.now ≡ site_limit) × (k < size) × (all_name size sets.now ≡ true) }
    ensures { result ≡ earlier_keep rule size sets.now (k + 1) }
{
    let set = sets[k as usize];
    sets[..k as usize]
        .iter()
        .all(|&earlier| pair_keeps(rule, set, earlier))
}

// An inner call: the set at index k keeps the rule. Sets are compared only where none is empty or names a site outside 1 to `size`.
pub fn keeps(rule: Rule, size: u64, sets: &[u64], k: u64) -> bool
    requires { (size ≤ site_limit) × (length sets.now ≡ site_limit) × (k < size) × MayCompare rule size sets.now }
    ensures { result ≡ keeps_rule rule size sets.now (k + 1) }
{
    match rule {
        Rule::Names => names_sites(size, sets[k as usize]),
        Rule::Meets => earlier_keep(Rule::Meets, size, sets, k),
        Rule::Unnested => earlier_keep(Rule::Unnested, size, sets, k),
        Rule::Fits => earlier_keep(Rule::Fits, size, sets, k),
    }
}
