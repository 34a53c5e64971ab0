//! What a table knows of its keys without a search.
ghost use Rattle.std.specs.Prelude.{◌≡◌, ◌≢◌, ℕ, ◌<◌, ◌==◌, ◌&&◌, nat_lt, true, map, if◌then◌else◌};
ghost use Rattle.std.specs.List.{list_any};
ghost use Rattle.std.specs.Option.{is_some, option_copied};
ghost use Rattle.tb_ledger.specs.Tables.{MayBeKey, unfound, without_id};

/// A bound of the keys, and ids that are not keys.
#[derive(Drop)]
pub struct AbsentIds {
    /// No key is above it.
    pub top: u128,
    /// Ids were looked for.
    pub sought: bool,
    /// Those of them that are not keys; 0 means no id.
    pub absent: [u128; 8],
}

/// The id is one of eight, and not 0.
fn is_among(ids: &[u128; 8], id: u128) -> bool
    ensures { result ≡ (nat_lt 0 id && list_any (λ x. x == id) ids.now) }
{
    0 < id && ids.contains(&id)
}

/// The id, or 0 if it is the other one.
fn unless(id: u128, other: u128) -> u128
    ensures { result ≡ (if id == other then 0 else id) }
{
    if id == other { 0 } else { id }
}

/// The ids, with 0 for one of them.
fn without_id(ids: &[u128; 8], id: u128) -> [u128; 8]
    ensures { result ≡ without_id id ids.now }
{
    let [a, b, c, d, e, f, g, h] = ids;
    [
        unless(*a, id),
        unless(*b, id),
        unless(*c, id),
        unless(*d, id),
        unless(*e, id),
        unless(*f, id),
        unless(*g, id),
        unless(*h, id),
    ]
}

/// The id, or 0 if its row was found.
fn if_unfound<V: Copy>(id: u128, row: &Option<&V>) -> u128
    ensures { result ≡ (if is_some (option_copied row.now) then 0 else id) }
{
    if row.is_some() { 0 } else { id }
}

/// The ids whose rows were not found, with 0 for each id whose row was found.
pub fn unfound<V: Copy>(ids: &[u128; 8], rows: &[Option<&V>; 8]) -> [u128; 8]
    ensures { result ≡ unfound ids.now (map option_copied rows.now) }
{
    let [a, b, c, d, e, f, g, h] = ids;
    let [ra, rb, rc, rd, re, rf, rg, rh] = rows;
    [
        if_unfound(*a, ra),
        if_unfound(*b, rb),
        if_unfound(*c, rc),
        if_unfound(*d, rd),
        if_unfound(*e, re),
        if_unfound(*f, rf),
        if_unfound(*g, rg),
        if_unfound(*h, rh),
    ]
}

impl AbsentIds {
    /// There are no keys.
    pub fn new() -> Self {
        AbsentIds {
            top: 0,
            sought: false,
            absent: [0; 8],
        }
    }

    /// The id is not a key.
    pub fn excludes(&self, id: u128) -> bool
        ensures { result ≡ true → (k : ℕ) → MayBeKey self.now k → k ≢ id }
    {
        if self.top < id {
            return true;
        }
        if !self.sought {
            return false;
        }
        is_among(&self.absent, id)
    }

    /// At least half of the ids may be keys, because they are not above all keys.
    pub fn is_worth_seeking(&self, ids: &[u128; 8]) -> bool {
        4 <= ids.iter().filter(|id| **id <= self.top).count()
    }

    /// The id becomes a key.
    pub fn admit(&mut self, id: u128)
        ensures here { MayBeKey self.new id }
        ensures others { (k : ℕ) → MayBeKey self.old k → MayBeKey self.new k }
    {
        self.top = self.top.max(id);
        if !self.sought {
            return;
        }
        self.absent = without_id(&self.absent, id);
    }
}
