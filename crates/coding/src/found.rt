// The values of the true atoms: for each variable 0 where no true atom of it is met, else the value of one, plus 1.
ghost use Rattle.std.specs.Prelude.{◌≡◌, map, ◌<◌, length, get_or};
ghost use Rattle.definitions.specs.Lists.{all, below};
ghost use Rattle.definitions.specs.Literal.{most_atoms};
ghost use Rattle.fdr_image.specs.Reads.{fdr_of, ReadsFdr};
ghost use Rattle.coding.specs.Found.{codable_at, value_at};
ghost use Rattle.coding.specs.Post.{Finds, Noted, Found, Valued, Writes};

// Notes the value of an atom if its byte says that it is true. False if the variable has a true atom already.
fn note(values: &mut [usize], variable: usize, value: usize, byte: u8) -> bool
    requires { (variable < length values.old) × (value < 65536) }
    ensures { Noted byte variable value values.old values.new result }
{
    if byte != 1 {
        return true;
    }
    if values[variable] != 0 {
        return false;
    }
    values[variable] = value + 1;
    true
}

// Notes the values of the true atoms of a task's state. False if two of one variable are true.
pub fn find(image: &[u16], state: &[u8], values: &mut [usize]) -> bool
    requires { Finds image.now state.now values.old }
    ensures { Found (fdr_of image.now) state.now values.new result }
{
    for (a, byte) in state.iter().enumerate() {
        let variable = fdr_image::atom_variable(image, a);
        let value = fdr_image::atom_value(image, a);
        if !note(values, variable, value, *byte) {
            return false;
        }
    }
    true
}

// Whether a variable with this noted value can be coded: it has a true atom, or none is a value of it.
fn is_codable(image: &[u16], noted: usize, variable: usize) -> bool
    requires { ReadsFdr image.now × (variable < length (fdr_of image.now).domains) }
    ensures { result ≡ codable_at (fdr_of image.now) noted variable }
{
    noted != 0 || fdr_image::none_flag(image, variable) == 1
}

// Whether all variables can be coded, where no two true atoms are of one variable.
pub fn are_codable(image: &[u16], values: &[usize]) -> bool
    requires { ReadsFdr image.now × (length values.now ≡ most_atoms) }
    ensures { result ≡ all (λ v. codable_at (fdr_of image.now) (get_or values.now v 0) v) (below (length (fdr_of image.now).domains)) }
{
    (0..fdr_image::variables(image)).all(|v| is_codable(image, values[v], v))
}

// The value of a variable: that of its true atom, else none, the last value.
fn value_at(image: &[u16], noted: usize, variable: usize) -> u16
    requires { Valued image.now noted variable }
    ensures { result ≡ value_at (fdr_of image.now) noted variable }
{
    if noted == 0 {
        (fdr_image::domain_size(image, variable) - 1) as u16
    } else {
        (noted - 1) as u16
    }
}

// Writes the value of each variable.
pub fn write(image: &[u16], values: &[usize], target: &mut [u16])
    requires { Writes image.now values.now (length target.old) }
    ensures { target.new ≡ map (λ v. value_at (fdr_of image.now) (get_or values.now v 0) v) (below (length (fdr_of image.now).domains)) }
{
    for (v, value) in target.iter_mut().enumerate() {
        *value = value_at(image, values[v], v);
    }
}
