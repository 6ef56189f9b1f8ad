// Runs a script of calls, read from standard input, on a newly formatted and opened store of 4 groups and 8 homes: the paper's
// trial 14. Of standard input the first 65,536 bytes are read. A last line without a line end counts. A read or a write that fails
// ends the run.
#![tactic(auto)]

mod show;

ghost use Rattle.std.specs.Prelude.{◌≡◌, ◌≤◌, IfOk, length, replicate};
ghost use Rattle.model.specs.Calls.{store_call};
ghost use Rattle.call_ask.specs.Lent.{lent, leaves};
ghost use Rattle.prog_script.specs.Call.{memory, Does};

use call_ask::Reply;
use prog_lines::Line;
use std::io;
use std::io::Read;

// Stores a block full of one byte.
fn store(
    log: &mut [u8],
    area: &[u8],
    state: &mut [u8],
    batch: &mut [u8],
    writer: u64,
    home: u64,
    fill: u8,
) -> Reply
    ensures { leaves result.code result.figure result.size log.new area.now state.new (replicate 64 fill)
        batch.new
        ≡ store_call (lent log.old area.now state.old (replicate 64 fill)
        batch.old writer home) }
{
    let block = [fill; 64];
    call_store::store(log, area, state, &block, batch, writer, home)
}

// What stands for the code of a malformed line; no call answers with it.
const MALFORMED: u64 = 11;

// Makes the call that a line asks for.
fn call(
    log: &mut [u8],
    area: &mut [u8],
    state: &mut [u8],
    newest: &mut [u8],
    batch: &mut [u8],
    asked: Line,
) -> Reply
    ensures { Does asked (memory log.old area.old state.old newest.old
        batch.old)
        result.code result.figure result.size (memory log.new area.new state.new newest.new
        batch.new) }
{
    match asked {
        Line::Begin(w) => {
            return call_writer::begin(log, area, state, w);
        }
        Line::Store(w, home, fill) => {
            return store(log, area, state, batch, w, home, fill);
        }
        Line::Commit(w) => {
            return call_commit::commit(log, area, state, newest, batch, w);
        }
        Line::Flush => {
            return call_flush::flush(log, area, state, batch);
        }
        Line::Settle => {
            return call_settle::settle(log, area, state, batch);
        }
        Line::Trim => {
            return call_trim::trim(log, area, state, newest, batch);
        }
        Line::Malformed => {
            return call_ask::refused(MALFORMED);
        }
    }
}

// Runs a line, and shows what came of it.
fn run(
    rt: &impl Print,
    log: &mut [u8],
    area: &mut [u8],
    state: &mut [u8],
    newest: &mut [u8],
    batch: &mut [u8],
    line: &[u8],
) -> io::Result<()> {
    let reply = call(log, area, state, newest, batch, prog_lines::parse(line));
    if reply.code == MALFORMED {
        return show::malformed(rt);
    }
    show::show(rt, batch, reply.size, reply.code)
}

// Runs each line of a script.
fn run_all(
    rt: &impl Print,
    log: &mut [u8],
    area: &mut [u8],
    state: &mut [u8],
    newest: &mut [u8],
    batch: &mut [u8],
    script: &[u8],
) -> io::Result<()> {
    let mut at: usize = 0;
    while at < script.len() {
        let end = prog_lines::until(script, at, b'\n');
        run(rt, log, area, state, newest, batch, &script[at..end])?;
        if end == script.len() {
            return Ok(());
        }
        at = end + 1;
    }
    Ok(())
}

// Reads until the buffer is full or the input ends, and returns how many bytes were read.
fn read_full(input: &mut impl Read, buffer: &mut [u8]) -> io::Result<usize>
    ensures { IfOk result (λ n. n ≤ length buffer.new) }
{
    let mut done = 0;
    while done < buffer.len() {
        let n = input.read(&mut buffer[done..])?;
        if n == 0 {
            break;
        }
        done += n;
    }
    Ok(done)
}

fn main(rt: HostRuntime) -> io::Result<()> {
    let mut log = [0u8; 2112];
    let mut area = [0u8; 512];
    let mut state = [0u8; 1024];
    let mut newest = [0u8; 64];
    let mut batch = [0u8; 4096];
    let mut input = [0u8; 65536];
    let n = read_full(&mut rt.stdin(), &mut input)?;
    call_open::format(&mut log, &mut area, &mut batch);
    call_open::reopen(&mut log, &mut area, &mut state, &mut newest, &mut batch);
    run_all(
        &rt,
        &mut log,
        &mut area,
        &mut state,
        &mut newest,
        &mut batch,
        &input[..n],
    )
}
