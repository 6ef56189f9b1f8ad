// Hours book of a pump: what its home block holds, and what a start and a stop make of it.
#![tactic(auto)]

ghost use Rattle.std.specs.Prelude.{◌≡◌, ◌^◌, ◌<◌, length};
ghost use Rattle.unit_hours_book.specs.Pump.{pump_of, flag, block_of, Fits};
ghost use Rattle.unit_hours_book.specs.Events.{start_at, stop_at, late, total_at, leaves, applied};
ghost use Rattle.unit_hours_book.specs.Services.{due};

// What a pump's home block holds: starts, seconds of finished runs, the last event's second, and whether the pump runs.
#[derive(Clone, Copy)]
pub struct Pump {
    pub starts: u64,
    pub total: u64,
    pub last: u64,
    pub running: bool,
}

// Whole services due, and seconds left over.
#[derive(Clone, Copy)]
pub struct Due {
    pub services: u64,
    pub left: u64,
}

// Reads a pump's block.
pub fn read(block: &[u8]) -> Pump
    requires { length block.now ≡ 64 }
    ensures { (result ≡ pump_of block.now) × Fits result }
{
    let starts = base_codec::number(block, 0, 4);
    let total = base_codec::number(block, 4, 4);
    let last = base_codec::number(block, 8, 4);
    let running = base_codec::number(block, 12, 1) != 0;
    Pump {
        starts,
        total,
        last,
        running,
    }
}

fn flag(running: bool) -> u64
    ensures { result ≡ flag running }
{
    if running { 1 } else { 0 }
}

// Makes `block` that of the record `p`.
fn write(block: &mut [u8], p: Pump)
    requires { length block.old ≡ 64 }
    ensures { block.new ≡ block_of p }
{
    base_codec::clear(block, 0, 64);
    base_codec::put_number(block, 0, 4, p.starts);
    base_codec::put_number(block, 4, 4, p.total);
    base_codec::put_number(block, 8, 4, p.last);
    base_codec::put_number(block, 12, 1, flag(p.running));
}

// 16 for a second before the last event or a figure past 32 bits, else 0.
fn late(p: Pump, second: u64, figure: u64) -> u64
    ensures { result ≡ late p second figure }
{
    if second < p.last {
        return 16;
    }
    if figure < 0x1_0000_0000 { 0 } else { 16 }
}

// The total with a run that ends now.
fn total_at(p: Pump, second: u64) -> u64
    requires { Fits p × (second < 2 ^ 32) }
    ensures { result ≡ total_at p second }
{
    if p.last < second {
        return p.total + (second - p.last);
    }
    p.total
}

// A start of the pump whose block is lent: 0 for done, 15 or 16; a refusal leaves the block as it was.
pub fn start(block: &mut [u8], second: u32) -> u64
    requires { length block.old ≡ 64 }
    ensures { leaves result block.new ≡ applied block.old (start_at second) }
{
    let p = read(block);
    if p.running {
        return 15;
    }
    let code = late(p, second as u64, p.starts + 1);
    if code != 0 {
        return code;
    }
    write(
        block,
        Pump {
            starts: p.starts + 1,
            total: p.total,
            last: second as u64,
            running: true,
        },
    );
    0
}

// A stop of the pump whose block is lent, answered as a start is.
pub fn stop(block: &mut [u8], second: u32) -> u64
    requires { length block.old ≡ 64 }
    ensures { leaves result block.new ≡ applied block.old (stop_at second) }
{
    let p = read(block);
    if !p.running {
        return 15;
    }
    let total = total_at(p, second as u64);
    let code = late(p, second as u64, total);
    if code != 0 {
        return code;
    }
    write(
        block,
        Pump {
            starts: p.starts,
            total,
            last: second as u64,
            running: false,
        },
    );
    0
}

// Whole services due after `total` seconds, one each `interval`, and the seconds left over.
pub fn services(total: u64, interval: u64) -> Due
    requires { 0 < interval }
    ensures { result ≡ due total interval }
{
    Due {
        services: total / interval,
        left: total % interval,
    }
}
