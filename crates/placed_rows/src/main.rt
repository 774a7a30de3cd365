// The boards that a lent row of job records gets (slotboards::place_rows): of Figure 1 of document 000, and of eight jobs without needs.
// Prints for each the boards in the order of the jobs, by crate `io` on a file descriptor, as crate `printing` does.
#![tactic(auto)]

ghost use Rattle.std.specs.Prelude.{◌≡◌, [], ◌<◌};
ghost use Rattle.rules.specs.Sizes.{max_limit, max_width, max_jobs};
ghost use Rattle.slotboards.specs.Rows.{RowsSeated, rules_rows};
ghost use Rattle.placed_rows.specs.Seats.{SeatsIn, seat_words, words_from, places_from, rows_from};
ghost use Rattle.placed_rows.specs.Seats.{rows_of, RowsRuled, SeatsRowed, SeatsRuled};
ghost use Rattle.placed_rows.specs.Figure.{figure_needs, figure_seats, first_seats};

use layout::{PREV, TABLES, WHO};
use sizes::{MAX_JOBS, PLACES};
use slotboards::JobRecord;
use streams::STDOUT_FILENO;

// Where eight jobs run: the slot of each, its place, and the set of the places of the slot before whose jobs give to it.
#[derive(Clone, Copy)]
struct Seats {
    pub slots: [u8; 8],
    pub places: [u8; 8],
    pub before: [u16; 8],
}

// The jobs of Figure 1, with needs 1-3, 1-4, 1-5, 2-5, 3-6, 4-6, 5-7 and 5-8.
const FIGURE: Seats = Seats {
    slots: [0, 0, 1, 2, 2, 3, 3, 4],
    places: [0, 1, 0, 0, 1, 0, 1, 0],
    before: [0, 0, 1, 0, 0, 1, 2, 0],
};

// Eight jobs without needs, in slot 0.
const FIRST: Seats = Seats {
    slots: [0; 8],
    places: [0, 1, 2, 3, 4, 5, 6, 7],
    before: [0; 8],
};

// Lends the row: these records with their boards, for jobs at these places (crate layout).
fn placed(
    rows: [JobRecord; 8],
    tables: &[u16; TABLES],
    places: &[u8; MAX_JOBS],
    slots: usize,
) -> [JobRecord; 8]
    requires { RowsSeated rows tables.now places.now slots }
    ensures { RowsRuled rows tables.now places.now slots result }
{
    let mut row = rows;
    slotboards::place_rows(&mut row, tables, places, slots);
    row
}

// A job gets its seat: the tables have it at a place of a slot, with its givers in the slot before.
fn seat_job(tables: &mut [u16; TABLES], job: usize, slot: u8, place: u8, before: u16)
    requires { (job < max_jobs) × (slot < max_limit) × (place < max_width) }
    ensures { tables.new ≡ seat_words job slot place before tables.old }
{
    let s = usize::from(slot);
    let p = usize::from(place);
    tables[WHO + PLACES * s + p] = job as u16;
    tables[PREV + PLACES * s + p] = before;
}

// Eight jobs get their seats.
fn seat_jobs(seats: Seats, tables: &mut [u16; TABLES], places: &mut [u8; MAX_JOBS])
    requires { SeatsIn seats }
    ensures { (tables.new ≡ words_from seats 8 tables.old) × (places.new ≡ places_from seats 8 places.old) }
{
    for job in 0..8 {
        let place = seats.places[job];
        seat_job(tables, job, seats.slots[job], place, seats.before[job]);
        places[job] = place;
    }
}

// The records of eight jobs that start in these slots, without boards.
fn rows_of(slots: [u8; 8]) -> [JobRecord; 8]
    ensures { result ≡ rows_from slots 8 }
{
    slots.map(|start| JobRecord { start, board: 0 })
}

// The records of eight jobs with these seats, with their boards.
fn boarded(seats: Seats, slots: usize) -> [JobRecord; 8]
    requires { SeatsIn seats × SeatsRowed seats slots }
    ensures { SeatsRuled seats slots result }
{
    let mut tables = [0; TABLES];
    let mut places = [0; MAX_JOBS];
    seat_jobs(seats, &mut tables, &mut places);
    placed(rows_of(seats.slots), &tables, &places, slots)
}

// The records of Figure 1.
fn figure() -> [JobRecord; 8]
    ensures { result ≡ (rules_rows figure_needs (rows_of figure_seats)).rows }
{
    boarded(FIGURE, 5)
}

// The records of eight jobs without needs.
fn without_needs() -> [JobRecord; 8]
    ensures { result ≡ (rules_rows [] (rows_of first_seats)).rows }
{
    boarded(FIRST, 1)
}

// A line with the boards of eight jobs.
fn show(label: &[u8], rows: [JobRecord; 8]) {
    io::write_all(STDOUT_FILENO, label);
    for job in &rows {
        io::write_all(STDOUT_FILENO, b" ");
        io::print_decimal(STDOUT_FILENO, u64::from(job.board));
    }
    io::write_all(STDOUT_FILENO, b"\n");
}

// Both lines.
fn main() {
    show(b"figure 1:", figure());
    show(b"eight jobs without needs:", without_needs());
}
