// The job file, read field by field: questions 2 to 8 and 10 of document 01, and 21. The field reader stands in crate fieldreader.
//
// Jobs are counted from 0 here. The needs go into rows of takers in a lent slice of bytes (crate needrows): a job's row is cleared when the job is read.
#![tactic(auto)]

ghost use Rattle.std.specs.Prelude.{◌≡◌, List, ℕ, ◌<◌, ◌≤◌, length, T};
ghost use Rattle.std.specs.Option.{unwrap_or};
ghost use Rattle.rules.specs.Sizes.{max_jobs, max_file, max_boards};
ghost use Rattle.needrows.specs.Rows.{rows_size};
ghost use Rattle.rules.specs.JobFile.{length_ok, is_job, no_fields};
ghost use Rattle.jobfile.specs.Reading.{state_of, initial, answer_of};
ghost use Rattle.jobfile.specs.Reading.{counted_more, FieldAnswered, take_need, take_field, complete_answer, Held, Same, Reads};
ghost use Rattle.jobfile.specs.FieldByField.{all_fields};

use fieldreader::field_at;
use fields::{name_ok, word_at};
use refusals::Refusal;
use sizes::{MAX_BOARDS, MAX_FILE, MAX_JOBS, MAX_SLOTS};

// How much has been read: so many fields, the limit, so many jobs. `sockets` is the value of tag 9, where it was there.
#[derive(Clone, Copy)]
pub struct Counts {
    pub sockets: Option<u8>,
    pub fields: usize,
    pub limit: usize,
    pub jobs: usize,
}

// Is this the number, from 1, of one of so many jobs?
#[tactic(auto, unfolding(rules::specs::JobFile::is_job))]
fn is_job(jobs: usize, number: usize) -> bool
    ensures { result ≡ is_job jobs number }
{
    (1..=jobs).contains(&number)
}

// One field more, that says nothing new.
#[tactic(auto, unfolding(crate::specs::Reading::counted_more))]
fn counted(c: Counts) -> Counts
    requires { c.fields < 65536 }
    ensures { result ≡ counted_more c }
{
    Counts {
        fields: c.fields + 1,
        ..c
    }
}

// The header: question 6.
fn take_header(c: Counts, v: &[u8]) -> Result<Counts, Refusal>
    requires { (c.fields < 65536) × (1 ≤ length v.now) }
    ensures { FieldAnswered c 1 v.now result }
{
    if v[0] != 1 {
        return Err(Refusal::BadValue);
    }
    Ok(counted(c))
}

// The limit: question 6.
fn take_limit(c: Counts, v: &[u8]) -> Result<Counts, Refusal>
    requires { (c.fields < 65536) × (1 ≤ length v.now) }
    ensures { FieldAnswered c 2 v.now result }
{
    let limit = usize::from(v[0]);
    if !(1..=MAX_SLOTS).contains(&limit) {
        return Err(Refusal::BadValue);
    }
    Ok(Counts {
        limit,
        ..counted(c)
    })
}

// A job, whose field stands at offset `at`: questions 6 and 7. It has no taker yet.
fn take_job(
    c: Counts,
    at: usize,
    v: &[u8],
    offsets: &mut [u16; MAX_JOBS],
    rows: &mut [u8],
) -> Result<Counts, Refusal>
    requires { (c.fields < 65536) × (c.jobs ≤ max_jobs) × (at < 65536) × (2 ≤ length v.now) × (rows_size ≤ length rows.old) }
    ensures { (answer_of result offsets.new rows.new
        ≡ take_field (state_of c offsets.old rows.old) 3 at v.now) × (length rows.new ≡ length rows.old) }
{
    if !name_ok(v) {
        return Err(Refusal::BadValue);
    }
    let jobs = c.jobs;
    if MAX_JOBS <= jobs {
        return Err(Refusal::TooManyJobs);
    }
    // No `try_from`: an offset is below 65,536 (the requires), so its error could not come.
    offsets[jobs] = at as u16;
    needrows::clear_row(rows, jobs);
    Ok(Counts {
        jobs: jobs + 1,
        ..counted(c)
    })
}

// A need between the jobs with these numbers: question 8. The giver gets the taker; a pair that comes again changes nothing.
fn take_need(c: Counts, giver: usize, taker: usize, rows: &mut [u8]) -> Result<Counts, Refusal>
    requires { (c.fields < 65536) × (c.jobs ≤ max_jobs) × (rows_size ≤ length rows.old) }
    ensures { ((o : List ℕ) → answer_of result o rows.new ≡ take_need (state_of c o rows.old) giver taker)
        × (length rows.new ≡ length rows.old) }
{
    if !is_job(c.jobs, giver) {
        return Err(Refusal::BadNeed);
    }
    if !is_job(c.jobs, taker) {
        return Err(Refusal::BadNeed);
    }
    if giver == taker {
        return Err(Refusal::BadNeed);
    }
    needrows::add(rows, giver - 1, taker - 1);
    Ok(counted(c))
}

// The most boards: questions 6 and 21.
fn take_sockets(c: Counts, v: &[u8]) -> Result<Counts, Refusal>
    requires { (c.fields < 65536) × (1 ≤ length v.now) }
    ensures { FieldAnswered c 9 v.now result }
{
    let sockets = v[0];
    if !(1..=MAX_BOARDS).contains(&sockets) {
        return Err(Refusal::BadValue);
    }
    if c.sockets.is_some() {
        return Err(Refusal::BoardsTwice);
    }
    Ok(Counts {
        sockets: Some(sockets),
        ..counted(c)
    })
}

// The field at offset `at`, with its tag and value: the rest of question 6, 7, 8, and 21.
fn take_field(
    c: Counts,
    tag: u8,
    at: usize,
    v: &[u8],
    offsets: &mut [u16; MAX_JOBS],
    rows: &mut [u8],
) -> Result<Counts, Refusal>
    requires { (c.fields < 65536) × (c.jobs ≤ max_jobs) × (at < 65536) × T (length_ok tag (length v.now)) × (rows_size ≤ length rows.old) }
    ensures { (answer_of result offsets.new rows.new
        ≡ take_field (state_of c offsets.old rows.old) tag at v.now)
        × (length rows.new ≡ length rows.old) }
{
    match tag {
        1 => take_header(c, v),
        2 => take_limit(c, v),
        3 => take_job(c, at, v, offsets, rows),
        4 => take_need(c, usize::from(v[0]), usize::from(v[1]), rows),
        6 => take_need(
            c,
            usize::from(word_at(v, 0)),
            usize::from(word_at(v, 2)),
            rows,
        ),
        9 => take_sockets(c, v),
        _ => Ok(counted(c)),
    }
}

// All fields, one after the other: questions 3 to 8, and 21.
fn read_fields(
    file: &[u8],
    offsets: &mut [u16; MAX_JOBS],
    rows: &mut [u8],
) -> Result<Counts, Refusal>
    requires { (length file.now ≤ max_file) × (rows_size ≤ length rows.old) × Held file.now no_fields (initial offsets.old rows.old) }
    ensures { Same file.now (all_fields file.now) (answer_of result offsets.new rows.new)
        × (length rows.new ≡ length rows.old) }
{
    let mut c = Counts {
        sockets: None,
        fields: 0,
        limit: 0,
        jobs: 0,
    };
    let mut at = 0;
    // No `for`: each field says where the next begins.
    while at < file.len() {
        let field = field_at(file, at, c.fields)?;
        c = take_field(
            c,
            field.tag,
            at,
            &file[field.start..field.end],
            offsets,
            rows,
        )?;
        at = field.end;
    }
    Ok(c)
}

// Question 10, after all fields.
#[tactic(auto, unfolding(crate::specs::Reading::complete_answer, rules::specs::Basics::choose))]
fn complete(c: Counts) -> Result<(), Refusal>
    ensures { result ≡ complete_answer c }
{
    if c.fields < 2 || c.jobs < 1 {
        return Err(Refusal::Incomplete);
    }
    Ok(())
}

// The most boards: eight where the file does not say.
pub fn most_boards(sockets: Option<u8>) -> u8
    ensures { result ≡ unwrap_or sockets max_boards }
{
    sockets.unwrap_or(MAX_BOARDS)
}

// The job file: questions 2 to 8, 10, and 21. The offsets get where the field of each job starts, the rows its takers.
pub fn read_file(
    file: &[u8],
    offsets: &mut [u16; MAX_JOBS],
    rows: &mut [u8],
) -> Result<Counts, Refusal>
    requires { (length offsets.old ≡ max_jobs) × (rows_size ≤ length rows.old) }
    ensures { Reads file.now result offsets.new rows.new × (length rows.new ≡ length rows.old) }
{
    if MAX_FILE < file.len() {
        return Err(Refusal::LongFile);
    }
    let c = read_fields(file, offsets, rows)?;
    complete(c)?;
    Ok(c)
}
