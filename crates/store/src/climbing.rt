// Keys in a strict order, as rows come and as a slot has its entries.
ghost use Rattle.std.specs.Prelude.{◌≡◌, ℕ, ◌<◌};
ghost use Rattle.lists.specs.Lists.{up_to};
ghost use Rattle.store.specs.Ids.{climbs, TellsBelow};

// Whether the keys at the places below n each are above the one before.
pub fn climbs<F: Fn(usize) -> u64>(n: usize, key: F) -> bool
    requires { (k : ℕ) → k < n → F.pre key k }
    ensures { (keys : ℕ → ℕ) → TellsBelow n (F.post key) keys → result ≡ climbs (up_to keys n) }
{
    if n == 0 {
        return true;
    }
    let mut last = key(0);
    for k in 1..n {
        let next = key(k);
        if next <= last {
            return false;
        }
        last = next;
    }
    true
}
