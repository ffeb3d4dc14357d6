// Runs a script of calls over a published plan, and prints what each call answered and the charge after it.
// Usage: prog_variant [--tree] [--changes] PLAN SCRIPT [KEPT]. PLAN is a listing, and the calls begin with an empty
// table; or it is a kept file (#101), and they go on from its table over its listing. With --tree it prints the tree
// that the calls leave, with --changes what is not as the listing has it (#102). KEPT, where it is given, names a new
// file, which gets the kept file of the table after the last call. Each of the files has less than 1 MiB, the table
// 1 MiB, and the report room for 32,768 calls. The five buffers of 1 MiB are locals: the program needs a stack of
// 6 MiB.
// What it does not take it says on standard error, in a line with the file's name, and its exit status is 0 all the
// same, but where standard error cannot be written to; `tools/variant` gives one, by whether anything was said there.
#![tactic(auto)]

mod args;
mod files;
mod keep;
mod said;
mod show;
mod views;

ghost use Rattle.std.specs.Prelude.{◌<◌, length};

use crate::args::Asked;
use kept_file::ReadError;
use model::Record;
use run_calls::RunError;
use std::io;
use std::rt::{Env, Files};

// Shows what was run, and keeps what it left; or says why it was not run.
fn finish(
    rt: &(impl Env + Files + Print),
    err: &impl Print,
    asked: Asked,
    ran: Result<Record, RunError>,
    listing: &[u8],
    script: &[u8],
    table: &[u8],
    work: &mut [u8],
    report: &[u8],
) -> io::Result<()>
    requires { 0 < length work.old }
{
    match ran {
        Ok(rec) => {
            let shown = show::calls(rt, script, report).is_ok();
            if show::printed(err, shown)? {
                keep::show_and_keep(rt, err, asked, listing, table, rec, work)?;
            }
            Ok(())
        }
        Err(RunError::MalformedScript) => {
            said::no_script(rt, err, asked.script, run_script::wrong_from(script))
        }
        Err(RunError::ShortReport) => {
            said::of_file(rt, err, asked.script, b"has more than 32,768 calls")
        }
        Err(RunError::MalformedTable) => {
            said::text(err, b"variant: the table could not be opened\n")
        }
    }
}

// Begins with an empty table over a listing. The contract of `run_new` has demand 3 in it.
fn begin(
    rt: &(impl Env + Files + Print),
    err: &impl Print,
    asked: Asked,
    listing: &[u8],
    script: &[u8],
    table: &mut [u8],
    work: &mut [u8],
    report: &mut [u8],
) -> io::Result<()>
    requires { 0 < length work.old }
{
    if !listing_check::check(listing) {
        return said::of_file(rt, err, asked.plan, b"is not a listing");
    }
    let ran = run_calls::run_new(listing, kept_file::ENTRY_SIZE, table, work, script, report);
    finish(rt, err, asked, ran, listing, script, table, work, report)
}

// Goes on from a kept file.
fn go_on(
    rt: &(impl Env + Files + Print),
    err: &impl Print,
    asked: Asked,
    file: &[u8],
    script: &[u8],
    table: &mut [u8],
    work: &mut [u8],
    report: &mut [u8],
) -> io::Result<()>
    requires { 0 < length work.old }
{
    match kept_read::read(file, table) {
        Ok(content) => {
            let rec = content.record;
            let listing = kept_read::listing_part(file);
            let ran = run_calls::run(listing, table, rec, work, script, report);
            finish(rt, err, asked, ran, listing, script, table, work, report)
        }
        Err(ReadError::NotKept) => {
            said::of_file(
                rt,
                err,
                asked.plan,
                b"is a kept file of another version, or too short to name one",
            )
        }
        Err(ReadError::Damaged) => { said::of_file(rt, err, asked.plan, b"is a damaged kept file") }
        Err(ReadError::NoRoom | ReadError::LongTable) => {
            said::of_file(rt, err, asked.plan, b"does not go into the table's buffer")
        }
    }
}

// Whether the plan is a kept file, by its mark.
fn is_kept(plan: &[u8]) -> bool {
    plan.starts_with(b"OVT")
}

// Runs what the files hold, and shows it.
fn run_files(
    rt: &(impl Env + Files + Print),
    err: &impl Print,
    asked: Asked,
    plan: &[u8],
    script: &[u8],
    table: &mut [u8],
    work: &mut [u8],
    report: &mut [u8],
) -> io::Result<()>
    requires { 0 < length work.old }
{
    if is_kept(plan) {
        go_on(rt, err, asked, plan, script, table, work, report)
    } else {
        begin(rt, err, asked, plan, script, table, work, report)
    }
}

fn read_and_run(
    rt: &(impl Env + Files + Print),
    err: &impl Print,
    asked: Asked,
    plan: &mut [u8],
    script: &mut [u8],
    table: &mut [u8],
    work: &mut [u8],
    report: &mut [u8],
) -> io::Result<()>
    requires { 0 < length work.old }
{
    let n = files::read_file(rt, err, asked.plan, plan)?;
    let m = files::read_file(rt, err, asked.script, script)?;
    if (n == 0) | (m == 0) {
        return Ok(());
    }
    run_files(
        rt,
        err,
        asked,
        &plan[..n],
        &script[..m],
        table,
        work,
        report,
    )
}

fn run_in(
    rt: &(impl Env + Files + Print),
    err: &impl Print,
    asked: Asked,
    plan: &mut [u8; 1048576],
    script: &mut [u8; 1048576],
    table: &mut [u8; 1048576],
    work: &mut [u8; 1048576],
    report: &mut [u8; 1048576],
) -> io::Result<()> {
    read_and_run(rt, err, asked, plan, script, table, work, report)
}

// The buffers stand in one function, which lends them on.
fn held(rt: &(impl Env + Files + Print), err: &impl Print, asked: Asked) -> io::Result<()> {
    let mut plan = [0u8; 1048576];
    let mut script = [0u8; 1048576];
    let mut table = [0u8; 1048576];
    let mut work = [0u8; 1048576];
    let mut report = [0u8; 1048576];
    run_in(
        rt,
        err,
        asked,
        &mut plan,
        &mut script,
        &mut table,
        &mut work,
        &mut report,
    )
}

fn main(rt: HostRuntime) -> io::Result<()> {
    let err = rt.stderr();
    match args::given(&rt) {
        Some(asked) => held(&rt, &err, asked),
        None => said::text(
            &err,
            b"usage: prog_variant [--tree] [--changes] PLAN SCRIPT [KEPT]\n",
        ),
    }
}
