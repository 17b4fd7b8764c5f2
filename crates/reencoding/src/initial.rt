// The initial values: of each variable the value of its group's true atom, or none after the last.
ghost use Rattle.std.specs.Prelude.{◌≡◌, ◌+◌, ◌≤◌, ◌<◌, length, take};
ghost use Rattle.writing.specs.Writing.{Wrote};
ghost use Rattle.reencoding.specs.Words.{AtomsGiven};
ghost use Rattle.reencoding.specs.Parts.{lower, lowered};

// Lowers the value of a variable to `x`.
fn lower(values: &mut [u16], v: usize, x: u16)
    requires { v < length values.old }
    ensures { values.new ≡ lower values.old v x }
{
    values[v] = values[v].min(x);
}

// Lowers the value of each variable to that of its true atoms.
fn lower_all(trues: &[u16], places: &[u16], values: &mut [u16])
    requires { AtomsGiven places.now trues.now (length values.old) }
    ensures { values.new ≡ lowered places.now trues.now values.old }
{
    for x in trues {
        let a = literal::wide(*x);
        lower(values, literal::wide(places[2 * a]), places[2 * a + 1]);
    }
}

// Writes the initial values of `count` variables: none, lowered to the true atoms.
pub fn values(
    trues: &[u16],
    places: &[u16],
    sizes: &[u16],
    count: usize,
    target: &mut [u16],
    at: usize,
) -> usize
    requires { (AtomsGiven places.now trues.now count) × (count ≤ length sizes.now) × (at + count ≤ length target.old) }
    ensures { Wrote target.old at (lowered places.now trues.now (take count sizes.now)) target.new result }
{
    let end = writing::words(&sizes[..count], target, at);
    lower_all(trues, places, &mut target[at..end]);
    end
}
