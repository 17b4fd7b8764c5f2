// Flags: a byte each, 1 for what has it. They flag literals, atoms, groups, operators or clauses.
ghost use Rattle.std.specs.Prelude.{◌≡◌, ◌&&◌, ltb, eqb, length, get_or, set, replicate};
ghost use Rattle.definitions.specs.Closure.{bit, has};
ghost use Rattle.literal.specs.Mark.{mark_if};

// The byte of a flag.
pub fn byte(b: bool) -> u8
    ensures { result ≡ bit b }
{
    u8::from(b)
}

// Whether `i` has its flag.
pub fn has(flags: &[u8], i: usize) -> bool
    ensures { result ≡ has flags.now i }
{
    flags.get(i) == Some(&1)
}

// Whether `i` has a place, and zero there.
pub fn is_zero(flags: &[u8], i: usize) -> bool
    ensures { result ≡ (ltb i (length flags.now) && eqb (get_or flags.now i 0) 0) }
{
    flags.get(i) == Some(&0)
}

// Gives `i` the byte `x`, if it has a place.
pub fn put(flags: &mut [u8], i: usize, x: u8)
    ensures { flags.new ≡ set flags.old i x }
{
    if i < flags.len() {
        flags[i] = x;
    }
}

// Gives `l` its flag, if `fires`.
pub fn mark_if(fires: bool, marks: &mut [u8], l: usize)
    ensures { marks.new ≡ mark_if fires marks.old l }
{
    if fires && l < marks.len() {
        marks[l] = 1;
    }
}

// Takes all flags away.
pub fn clear(flags: &mut [u8])
    ensures { flags.new ≡ replicate (length flags.old) 0 }
{
    flags.fill(0);
}
