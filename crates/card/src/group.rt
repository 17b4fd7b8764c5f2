// The lines of groups, by the places of the atoms: two words of each, its variable and its value.
ghost use Rattle.std.specs.Prelude.{◌+◌, ◌*◌, ◌≤◌, ◌<◌, length};
ghost use Rattle.writing.specs.Writing.{Wrote};
ghost use Rattle.card.specs.Text.{member_text, none_text, group_text, group_texts, cover_text};

// Writes an atom if it lies in group `v`. Its value says how many atoms stand before it.
fn write_member(out: &mut [u8], at: usize, places: &[u16], v: usize, a: usize) -> usize
    requires { (2 * a + 1 < length places.now) × (at + length (member_text places.now v a) ≤ length out.old) }
    ensures { Wrote out.old at (member_text places.now v a) out.new result }
{
    let variable = literal::wide(places[2 * a]);
    if variable != v {
        return at;
    }
    let value = literal::wide(places[2 * a + 1]);
    let to = text::separate(out, at, value);
    text::write_decimal(out, to, a)
}

// Writes "none" after the atoms if it is a value of the group.
fn write_none(out: &mut [u8], at: usize, none: u16) -> usize
    requires { at + length (none_text none) ≤ length out.old }
    ensures { Wrote out.old at (none_text none) out.new result }
{
    if none == 0 {
        return at;
    }
    writing::bytes(b" none", out, at)
}

// Writes the line of group `v`.
fn write_group(out: &mut [u8], at: usize, places: &[u16], v: usize, none: u16) -> usize
    requires { at + length (group_text places.now v none) ≤ length out.old }
    ensures { Wrote out.old at (group_text places.now v none) out.new result }
{
    let mut to = at;
    for a in 0..places.len() / 2 {
        to = write_member(out, to, places, v, a);
    }
    let end = write_none(out, to, none);
    writing::byte(b'\n', out, end)
}

// Writes the lines of `count` groups, of which `none` says whether none is a value.
fn write_groups(out: &mut [u8], at: usize, places: &[u16], none: &[u16], count: usize) -> usize
    requires { (count ≤ length none.now) × (at + length (group_texts places.now none.now count) ≤ length out.old) }
    ensures { Wrote out.old at (group_texts places.now none.now count) out.new result }
{
    let mut to = at;
    for (v, x) in none[..count].iter().enumerate() {
        to = write_group(out, to, places, v, *x);
    }
    to
}

// Writes the lines of a cover by `count` groups.
pub fn write_cover(out: &mut [u8], at: usize, places: &[u16], none: &[u16], count: usize) -> usize
    requires { (count ≤ length none.now) × (at + length (cover_text places.now none.now count) ≤ length out.old) }
    ensures { Wrote out.old at (cover_text places.now none.now count) out.new result }
{
    let to = super::line::write_count(out, at, count);
    write_groups(out, to, places, none, count)
}
