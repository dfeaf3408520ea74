// The door's functions under their names in C, for the archive libreefnettle.a. Each calls the function of its name in the crate reefnettle.
#![tactic(auto)]

ghost use Rattle.std.specs.Prelude.{◌≡◌};
ghost use Rattle.book_ledger.specs.Tables.{lent};
ghost use Rattle.call_run.specs.Runs.{begun_of};
ghost use Rattle.reefnettle.specs.Door.{handed_out, door_of, told, next_door, version};

use base_calls::Values;
use base_units::address::Hpa;
use book_gauge::Gauge;
use call_run::Run;
use door_requests::Request;
use reefnettle::Next;

// Any request on any lent tables and gauge.
#[unsafe(no_mangle)]
pub extern "C" fn reefnettle_ask(
    base: Hpa,
    frames: &mut [u64],
    domains: &mut [u64],
    stock: &mut [u64],
    entries: &mut [u32],
    g: &mut Gauge,
    r: Request,
) -> Values
    ensures { handed_out result (lent frames.new domains.new stock.new entries.new) g.new
        ≡ door_of base (lent frames.old domains.old stock.old entries.old) g.old r }
{
    reefnettle::reefnettle_ask(base, frames, domains, stock, entries, g, r)
}

// A run's beginning: what it knows of the lent tables and gauge.
#[unsafe(no_mangle)]
pub extern "C" fn reefnettle_begin(
    base: Hpa,
    frames: &[u64],
    domains: &[u64],
    stock: &[u64],
    entries: &[u32],
    gauge: Gauge,
) -> Run
    ensures { result ≡ begun_of base (lent frames.now domains.now stock.now entries.now) gauge }
{
    reefnettle::reefnettle_begin(base, frames, domains, stock, entries, gauge)
}

// The next request of a run, on tables that nobody else has touched since it began.
#[unsafe(no_mangle)]
pub extern "C" fn reefnettle_next(
    base: Hpa,
    frames: &mut [u64],
    domains: &mut [u64],
    stock: &mut [u64],
    entries: &mut [u32],
    known: Run,
    r: Request,
) -> Next
    ensures { told result.values (lent frames.new domains.new stock.new entries.new) result.run
        ≡ next_door base (lent frames.old domains.old stock.old entries.old) known r }
{
    reefnettle::reefnettle_next(base, frames, domains, stock, entries, known, r)
}

// REEFNETTLE_VERSION of the header, for a caller to compare.
#[unsafe(no_mangle)]
pub extern "C" fn reefnettle_version() -> u64
    ensures { result ≡ version }
{
    reefnettle::reefnettle_version()
}
