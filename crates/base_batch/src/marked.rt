// The writes of the marked homes, rising, as model/specs defines them: a record of 68 bytes for each, appended to a batch.
ghost use Rattle.std.specs.Prelude.{◌≡◌, ◌+◌, ◌*◌, ◌≤◌, length};
ghost use Rattle.model.specs.Bytes.{puts};
ghost use Rattle.model.specs.Batch.{batch_bytes};
ghost use Rattle.model.specs.Effects.{home_writes};
ghost use Rattle.base_bitmap.specs.Marks.{bits_of, raised};
ghost use Rattle.base_batch.specs.Within.{Within};

// Writes the records of the homes that one word marks, whose first home is `base`, rising, and returns the index past them.
pub fn emit_word(batch: &mut [u8], at: usize, word: u64, base: usize, area: &[u8]) -> usize
    requires within { Within area.now (raised base (bits_of word)) }
    requires word_in_bounds { (at + 68 * length (bits_of word) ≤ length batch.old) × (base + 64 ≤ 65536) }
    ensures batch_after { batch.new ≡ puts batch.old at (batch_bytes (home_writes area.now (raised base (bits_of word)))) }
    ensures value { result ≡ at + 68 * length (bits_of word) }
{
    let mut next = at;
    let mut w = word;
    while w != 0 {
        let home = base + base_bitmap::lowest(w);
        next = crate::records::home_write(batch, next, home, area);
        w = base_bitmap::clear_lowest(w);
    }
    next
}
