// Format: both copies as they are after formatting, and the batch that makes the areas so.
ghost use Rattle.std.specs.Prelude.{◌≡◌, [], length};
ghost use Rattle.model.specs.Bytes.{zeros};
ghost use Rattle.model.specs.Effects.{format_effect};
ghost use Rattle.model.specs.Questions.{format_answer};
ghost use Rattle.model.specs.Calls.{size_of, format_call};
ghost use Rattle.call_ask.specs.Lent.{lent, leaves};

use call_ask::Reply;

// The questions of format: 0, or the number of the refusal.
fn format_answer(log: &[u8], area: &[u8], batch: &[u8]) -> u64
    ensures { result ≡ format_answer (lent log.now area.now [] [] batch.now 0 0)
        (size_of (format_effect (lent log.now area.now [] [] batch.now 0 0))) }
{
    if !base_areas::log_right(log.len()) {
        return 1;
    }
    if !base_areas::data_right(area.len()) {
        return 1;
    }
    let groups = base_areas::log_groups(log.len());
    let homes = base_areas::data_homes(area.len());
    if (batch.len() as u64) < 138 + 516 * groups + 68 * homes {
        return 9;
    }
    0
}

// Makes every byte of the data copy zero.
fn format_area(area: &mut [u8])
    ensures { area.new ≡ zeros (length area.old) }
{
    let len = area.len();
    base_codec::clear(area, 0, len);
}

// Formats both copies, and writes the batch that formats the areas.
pub fn format(log: &mut [u8], area: &mut [u8], batch: &mut [u8]) -> Reply
    ensures { leaves result.code result.figure result.size log.new area.new [] [] batch.new
        ≡ format_call (lent log.old area.old [] [] batch.old 0 0) }
{
    let code = format_answer(log, area, batch);
    if code != 0 {
        return call_ask::refused(code);
    }
    let groups = base_areas::log_groups(log.len());
    let homes = base_areas::data_homes(area.len());
    base_areas::put_empty_log(log, 0, groups, homes);
    format_area(area);
    let size = base_batch::format_batch(batch, groups, homes);
    call_ask::done(0, size as u64)
}
