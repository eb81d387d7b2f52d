// The search for all maximal k-plexes, and the call that lists them.
#![tactic(auto)]

ghost use Rattle.std.specs.Prelude.{◌≡◌, ◌^◌, ◌<◌, length};
ghost use Rattle.sets.specs.Words.{mask, masks};
ghost use Rattle.judging.specs.Request.{request, asked};
ghost use Rattle.lists.specs.Listing.{listed};
ghost use Rattle.lists.specs.Placing.{Adds};
ghost use Rattle.search.specs.Filling.{FillsFound};
ghost use Rattle.search.specs.Start.{attached, Searchable, Accepted, Candidates, Startable};
ghost use Rattle.search.specs.Calls.{Collects, Lists};

mod branch;
pub mod choice;
mod cliques;
pub mod cut;
mod floor;
mod free;
pub mod near;
mod partition;
mod slots;
pub mod trim;
mod wanted;

use branch::Search;
use floor::Floor;
use judging::{Refusal, Request};
use sets::Set;
use slots::Slots;

// The cuts, each with its switch. Every setting gives the same list. A switch is a value, which C hands over as a bit, and a cut tests it: as a step that the
// caller passes it would need a clause of its own.
#[derive(Clone, Copy)]
pub struct Cuts {
    pub core: bool,
    pub reach: bool,
    pub pairs: bool,
    pub second: bool,
    pub parted: bool,
    pub extension: bool,
    pub pivot: bool,
}

// For how many vertices taken the candidates are sifted by pairs.
const SIFTED: usize = 3;

// The vertices to start from where none is silent: the core, or all. At floor k the core is all.
pub fn candidates(rows: &[u64], k: usize, q: usize, core: bool) -> Set
    requires { Searchable (masks rows.now) (request k q 0) }
    ensures { Candidates (masks rows.now) (request k q 0) (mask result) }
{
    if core {
        if k < q {
            return bounds::cores::core(rows, q - k);
        }
    }
    Set::full(sets::count(rows))
}

// The members of `silent` that are adjacent to more than m members of s.
fn attached(rows: &[u64], m: usize, silent: Set, s: Set) -> Set
    requires { mask silent < 2 ^ length (masks rows.now) }
    ensures { mask result ≡ attached (masks rows.now) m (mask silent) (mask s) }
{
    let mut left = silent;
    let mut kept = silent;
    while !left.is_empty() {
        let v = left.lowest();
        left = left.rest(v);
        let near = s.meet(sets::get(rows, v)).size();
        kept = kept.without_if(v, near <= m);
    }
    kept
}

// The core of q - k among the vertices that are not silent, with the silent vertices that are adjacent to more of it than that.
fn core_beside(rows: &[u64], k: usize, q: usize, silent: Set) -> Set
    requires { Accepted (masks rows.now) (request k q (mask silent)) }
    ensures { Candidates (masks rows.now) (request k q (mask silent)) (mask result) }
{
    let others = Set::full(sets::count(rows)).minus(silent);
    let core = bounds::cores::core_within(rows, q - k, others);
    core.join(attached(rows, q - k, silent, core))
}

// The vertices to start from for a request: every listed plex lies in them.
pub fn starting(rows: &[u64], request: Request, core: bool) -> Set
    requires { Accepted (masks rows.now) (asked request) }
    ensures { Candidates (masks rows.now) (asked request) (mask result) }
{
    let silent = request.silent;
    if core {
        if !silent.is_empty() {
            return core_beside(rows, request.slack, request.floor, silent);
        }
        return candidates(rows, request.slack, request.floor, true);
    }
    Set::full(sets::count(rows))
}

// Places every listed plex that holds s and has no member outside s and c, while the slots have room, and counts them. Every listed plex lies in `all`.
// The search starts from anywhere; it is the whole list from the empty set and `all`.
fn enumerate_from(
    rows: &[u64],
    request: Request,
    cuts: Cuts,
    all: Set,
    s: Set,
    c: Set,
    slots: &mut Slots,
)
    requires { Startable (masks rows.now) (asked request) (mask all) (mask s) (mask c) }
    ensures same { slots.new.lent.ghost_name ≡ slots.old.lent.ghost_name }
    ensures fills { FillsFound (masks rows.now) (asked request) (mask s) (mask c) slots.old slots.new }
{
    let k = request.slack;
    let q = request.floor;
    let silent = request.silent;
    if cuts.pivot && k == 1 {
        let shared = cliques::common(rows, s);
        let want = Floor::beside(q, silent, s);
        return cliques::start(rows, want, s, c, shared, slots);
    }
    // at the lowest floor pair rows keep what the reach keeps
    let pairs = cuts.pairs && 2 * k <= q;
    let mut near = [0u64; sets::TABLE];
    near::fill(
        rows,
        k,
        q,
        all,
        all.minus(silent),
        cuts.reach,
        pairs,
        &mut near,
    );
    let search = Search {
        rows,
        near: &near,
        k,
        silent,
        cuts,
    };
    let few = if cuts.pairs { SIFTED } else { 0 };
    search.branch(q + s.meet(silent).size(), few, s, c, slots)
}

// Places every maximal k-plex of at least q members that are not silent while the slots have room, and counts them all. Each of them lies in `all`.
fn enumerate(rows: &[u64], request: Request, cuts: Cuts, all: Set, slots: &mut [u64]) -> usize
    requires { Accepted (masks rows.now) (asked request) × Candidates (masks rows.now) (asked request) (mask all) }
    ensures { Adds (2 ^ length (masks rows.now)) (listed (masks rows.now) (asked request))
        (masks slots.old) 0 (masks slots.new) result }
{
    let mut filled = Slots {
        lent: slots,
        count: 0,
    };
    enumerate_from(rows, request, cuts, all, Set::empty(), all, &mut filled);
    filled.count
}

// Puts every maximal k-plex of at least q members that are not silent in the first slots, in rising order, where there is room for all of them, and counts
// them in any case. Each of them lies in `all`.
pub fn collect(rows: &[u64], request: Request, cuts: Cuts, all: Set, slots: &mut [u64]) -> usize
    requires { Accepted (masks rows.now) (asked request) × Candidates (masks rows.now) (asked request) (mask all) }
    ensures { Collects (masks rows.now) (asked request) (masks slots.old) (masks slots.new) result }
{
    let m = enumerate(rows, request, cuts, all, slots);
    let room = sets::count(slots);
    if room < m {
        return m;
    }
    let end = sets::offset(slots, m);
    lists::sort::sort(&mut slots[..end]);
    m
}

// The list with the cuts that are switched on: m, or why the call declines. The promise is that of `list`, whatever the setting.
pub fn list_with(
    rows: &[u64],
    request: Request,
    cuts: Cuts,
    slots: &mut [u64],
) -> Result<usize, Refusal>
    ensures { Lists (masks rows.now) (asked request) (masks slots.old) (masks slots.new) result }
{
    judging::check::check_request(rows, request)?;
    let all = starting(rows, request, cuts.core);
    let m = collect(rows, request, cuts, all, slots);
    if sets::count(slots) < m {
        lists::place::clear(slots);
        return Err(Refusal::Slots(m));
    }
    Ok(m)
}

// The cuts that serve the list best: all but the second bound (docs/PERFORMANCE.md).
pub fn usual() -> Cuts {
    Cuts {
        core: true,
        reach: true,
        pairs: true,
        second: false,
        parted: true,
        extension: true,
        pivot: true,
    }
}

// Every maximal k-plex with at least q members that are not silent of the graph with these rows, as masks in rising order, each once, for the slack k, the
// floor q and the silent set of the request. Whether a set is a k-plex, and maximal, concerns all its members.
// Outcome: m, their number; the first m slots hold them, and the later ones keep what they held.
// Refusals: 1, 2, 3, 7 where the silent set reaches n or above, 4, 5, which leave the slots, and 6 with the exact m where there are fewer slots than m,
// which makes all slots 0.
// Cost: exponential in the worst case; it grows with the list where the floor is low.
pub fn list(rows: &[u64], request: Request, slots: &mut [u64]) -> Result<usize, Refusal>
    ensures { Lists (masks rows.now) (asked request) (masks slots.old) (masks slots.new) result }
{
    list_with(rows, request, usual(), slots)
}
