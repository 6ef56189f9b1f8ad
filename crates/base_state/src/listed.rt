// The newest committed positions of the four homes of the list of rights, eight bytes each in the state strip, and behind them the list's sign.
ghost use Rattle.std.specs.Prelude.{◌≡◌, ◌*◌, length};
ghost use Rattle.model.specs.State.{set_listed, list_sign, set_list_sign};
ghost use Rattle.model.specs.Newest.{carry_listed};

// Stores the four positions, and leaves the rest of the strip as it was.
pub fn set_listed(s: &mut [u8], positions: &[u8])
    requires { (length s.old ≡ 1024) × (length positions.now ≡ 32) }
    ensures { s.new ≡ set_listed s.old positions.now }
{
    base_codec::copy(s, 896, positions)
}

// Carries the four positions over from the newest positions of `homes` homes, where the list has its homes.
pub fn carry_listed(s: &mut [u8], newest: &[u8], homes: u64)
    requires { (length s.old ≡ 1024) × (length newest.now ≡ 8 * homes) }
    ensures { s.new ≡ carry_listed homes newest.now s.old }
{
    if homes < 12 {
        return;
    }
    set_listed(s, &newest[64..96]);
}

// The list's sign: 1, the list as committed is all zeros; 2, it is not; else nothing is said.
pub fn list_sign(s: &[u8]) -> u64
    requires { length s.now ≡ 1024 }
    ensures { result ≡ list_sign s.now }
{
    base_codec::number(s, 928, 8)
}

// Stores the sign `v`, and leaves the rest of the strip as it was.
pub fn set_list_sign(s: &mut [u8], v: u64)
    requires { length s.old ≡ 1024 }
    ensures { s.new ≡ set_list_sign s.old v }
{
    base_codec::put_number(s, 928, 8, v)
}
