// The C functions of include/kheyambo.h, by their symbols: the archive that C programs link. Each calls the function of `export` that has its name,
// and states the same clauses.
#![tactic(auto)]

ghost use Rattle.std.specs.Prelude.{◌≡◌};
ghost use Rattle.layout.specs.Calls.{index};
ghost use Rattle.export.specs.Said.{bits_named, spread_named, numbers_named};
ghost use Rattle.export.specs.Said.{left, told, build_said, add_said, remove_said, check_said, ask_said, counted, census_said, run_said};

use export::{NamedRuler, Said, Shown, Told};
use view::{LEVELS, SUBDIVISIONS};

// The ruler of the times 0 to 2^w - 1.
#[unsafe(no_mangle)]
pub extern "C" fn kheyambo_bits(w: u32, m: u32) -> NamedRuler
    ensures { result ≡ bits_named w m }
{
    export::kheyambo_bits(w, m)
}

// The ruler that is spread over the times lo to hi.
#[unsafe(no_mangle)]
pub extern "C" fn kheyambo_spread(m: u32, lo: u32, hi: u32) -> NamedRuler
    ensures { result ≡ spread_named m lo hi }
{
    export::kheyambo_spread(m, lo, hi)
}

#[unsafe(no_mangle)]
pub extern "C" fn kheyambo_build(
    ruler: NamedRuler,
    table: &[u32],
    directory: &mut [u32],
    originals: &mut [u32],
    replicas: &mut [u32],
) -> Said
    ensures { left result (index directory.new originals.new replicas.new)
        ≡ build_said (numbers_named ruler) table.now (index directory.old originals.old replicas.old) }
{
    export::kheyambo_build(ruler, table, directory, originals, replicas)
}

#[unsafe(no_mangle)]
pub extern "C" fn kheyambo_check(
    ruler: NamedRuler,
    directory: &[u32],
    originals: &[u32],
    replicas: &[u32],
) -> Said
    ensures { result ≡ check_said (numbers_named ruler) (index directory.now originals.now replicas.now) }
{
    export::kheyambo_check(ruler, directory, originals, replicas)
}

#[unsafe(no_mangle)]
pub extern "C" fn kheyambo_add(
    ruler: NamedRuler,
    id: u32,
    start: u32,
    end: u32,
    days: u32,
    directory: &mut [u32],
    originals: &mut [u32],
    replicas: &mut [u32],
) -> Said
    ensures { left result (index directory.new originals.new replicas.new)
        ≡ add_said (numbers_named ruler) id start end days (index directory.old originals.old replicas.old) }
{
    export::kheyambo_add(ruler, id, start, end, days, directory, originals, replicas)
}

#[unsafe(no_mangle)]
pub extern "C" fn kheyambo_remove(
    ruler: NamedRuler,
    id: u32,
    directory: &mut [u32],
    originals: &mut [u32],
    replicas: &mut [u32],
) -> Said
    ensures { left result (index directory.new originals.new replicas.new)
        ≡ remove_said (numbers_named ruler) id (index directory.old originals.old replicas.old) }
{
    export::kheyambo_remove(ruler, id, directory, originals, replicas)
}

#[unsafe(no_mangle)]
pub extern "C" fn kheyambo_ask<'a>(
    ruler: NamedRuler,
    code: u32,
    start: u32,
    end: u32,
    day: u32,
    directory: &[u32],
    originals: &'a [u32],
    replicas: &'a [u32],
    answers: &mut [u32],
) -> Told
    ensures { told result answers.new
        ≡ ask_said (numbers_named ruler) code start end day (index directory.now originals.now replicas.now) answers.old }
{
    export::kheyambo_ask(
        ruler, code, start, end, day, directory, originals, replicas, answers,
    )
}

// The counts of the census, row after row, into a lent array.
#[unsafe(no_mangle)]
pub extern "C" fn kheyambo_census(
    ruler: NamedRuler,
    directory: &[u32],
    originals: &[u32],
    replicas: &[u32],
    counts: &mut [[u32; SUBDIVISIONS]; LEVELS],
) -> Said
    ensures { counted result counts.new
        ≡ census_said (numbers_named ruler) (index directory.now originals.now replicas.now) }
{
    export::kheyambo_census(ruler, directory, originals, replicas, counts)
}

// A run: where it stands in the arenas, and nothing copied.
#[unsafe(no_mangle)]
pub extern "C" fn kheyambo_run<'a>(
    ruler: NamedRuler,
    level: u32,
    partition: u32,
    subdivision: u32,
    directory: &[u32],
    originals: &'a [u32],
    replicas: &'a [u32],
) -> Shown
    ensures { result ≡ run_said (numbers_named ruler) level partition subdivision (index directory.now originals.now replicas.now) }
{
    export::kheyambo_run(
        ruler,
        level,
        partition,
        subdivision,
        directory,
        originals,
        replicas,
    )
}
