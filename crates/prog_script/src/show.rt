// What a call is shown by: the records of its batch, one to a line, and its answer.
ghost use Rattle.std.specs.Prelude.{◌<◌, ◌≤◌, IfOk, length};

use std::io;

// Writes a line of a record's mark and a number.
fn numbered(rt: &impl Print, mark: &str, n: u64) -> io::Result<()> {
    println!(rt; "{mark}{n}")
}

// Writes the line of the record at index `at` of a batch of `size` bytes, and returns the index after it. The marks differ in
// their first byte; bytes that make no record, which no call writes, end the batch.
fn record(rt: &impl Print, batch: &[u8], at: usize, size: usize) -> io::Result<usize>
    requires { (at < size) × (size ≤ length batch.now) }
    ensures { IfOk result (λ after. (at < after) × (after ≤ size)) }
{
    let left = size - at;
    let mark = batch[at];
    if left < 2 {
        return Ok(size);
    }
    if mark == b'F' {
        println!(rt; "FN")?;
        return Ok(at + 2);
    }
    if left < 66 {
        return Ok(size);
    }
    if mark == b'K' {
        numbered(rt, "KW ", base_codec::number(batch, at + 4, 6))?;
        return Ok(at + 66);
    }
    if left < 68 {
        return Ok(size);
    }
    if mark == b'H' {
        numbered(rt, "HW ", base_codec::number(batch, at + 2, 2))?;
        return Ok(at + 68);
    }
    if left < 516 {
        return Ok(size);
    }
    if mark == b'G' {
        numbered(rt, "GW ", base_codec::number(batch, at + 2, 2))?;
        return Ok(at + 516);
    }
    Ok(size)
}

// Writes the line of each record of a batch of `size` bytes.
fn records(rt: &impl Print, batch: &[u8], size: usize) -> io::Result<()>
    requires { size ≤ length batch.now }
{
    let mut at: usize = 0;
    while at < size {
        at = record(rt, batch, at, size)?;
    }
    Ok(())
}

// Writes the records in the first `size` bytes of the batch, and the answer.
pub fn show(rt: &impl Print, batch: &[u8], size: u64, code: u64) -> io::Result<()> {
    let n = size as usize;
    if n <= batch.len() {
        records(rt, batch, n)?;
    }
    numbered(rt, "= ", code)
}

// Says that a line is malformed.
pub fn malformed(rt: &impl Print) -> io::Result<()> {
    println!(rt; "?")
}
