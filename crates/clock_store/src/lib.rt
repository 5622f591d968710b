//! Cells, seconds, protect and test of the clock chip: what reads, writes and the passing of time do to them.
#![tactic(auto)]

ghost use Rattle.std.specs.Prelude.{◌≡◌};
ghost use Rattle.std.proofs.Math.Option.{some};
ghost use Rattle.clock_spec.specs.Command.{TargetInRange};
ghost use Rattle.clock_spec.specs.Shared.{advance, stops};
ghost use Rattle.clock_spec.specs.Writable.{writable};
ghost use Rattle.clock_spec.specs.Store.{with_seconds, unused_clear, fetch, put, act};

use clock_spec::{Store, Target};

// `fetch`, `put` and `act` ask one thing, that the chip has the target: the contract of `put` holds of no seconds byte past the third, whose place is beyond 32 bits; a struct of
// chip and target in one is no plainer, since the chip stands in the store.

/// The byte that a legal read takes.
#[tactic(auto, unfolding(clock_spec::specs::Store::fetch))]
pub fn fetch(store: &Store, target: Target) -> u8
    requires { TargetInRange store.now.chip target }
    ensures { result ≡ fetch target store.now }
{
    match target {
        Target::Seconds(k) => octets::byte_at(store.seconds, k),
        Target::Test => store.test,
        Target::Protect => 0,
        Target::Cell(i) => store.cells[i as usize],
    }
}

/// A byte put where it goes, whatever protect is.
#[tactic(auto, unfolding(clock_spec::specs::Store::put))]
pub fn put(store: &mut Store, target: Target, byte: u8)
    requires { TargetInRange store.old.chip target }
    ensures { store.new ≡ put target byte store.old }
{
    match target {
        Target::Seconds(k) => store.seconds = octets::replaced(store.seconds, k, byte),
        Target::Test => store.test = byte,
        Target::Protect => store.protect = 128 <= byte,
        Target::Cell(i) => store.cells[i as usize] = byte,
    }
}

// Whether a write to the target may act while protect is so.
fn may_write(target: Target, protect: bool) -> bool
    ensures { result ≡ writable target protect }
{
    match target {
        Target::Protect => true,
        Target::Seconds(_) | Target::Test | Target::Cell(_) => !protect,
    }
}

/// A complete write: it acts unless protect forbids it.
#[tactic(auto, unfolding(clock_spec::specs::Store::act))]
pub fn act(store: &mut Store, target: Target, byte: u8)
    requires { TargetInRange store.old.chip target }
    ensures { store.new ≡ act (some (record { to = target; byte = byte })) store.old }
{
    if may_write(target, store.protect) {
        put(store, target, byte);
    }
}

/// The seconds grow by so many, modulo 2^32, unless bit 7 or bit 6 of the test byte stops them (W-204).
pub fn add_seconds(store: &mut Store, seconds: u32)
    ensures { store.new ≡ with_seconds store.old (advance (stops store.old.test) seconds store.old.seconds) }
{
    if store.test < 64 {
        store.seconds = store.seconds.wrapping_add(seconds);
    }
}

/// Whether the cells that the chip does not have hold 0.
#[tactic(auto, unfolding(clock_spec::specs::Store::unused_clear))]
pub fn unused_clear(store: &Store) -> bool
    ensures { result ≡ unused_clear store.now }
{
    levels::all_below(&store.cells[clock_command::cell_count(store.chip)..], 1)
}
