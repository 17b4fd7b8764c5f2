// The truth of atoms in a finite-domain state.
ghost use Rattle.std.specs.Prelude.{◌≡◌, ◌<◌, length, get_or};
ghost use Rattle.definitions.specs.Coding.{to_atoms};
ghost use Rattle.fdr_image.specs.Reads.{fdr_of};
ghost use Rattle.fdr_image.specs.Walk.{place};
ghost use Rattle.coding.specs.Found.{byte_of};
ghost use Rattle.coding.specs.Post.{Decodes};

// The byte of an atom: 1 if its variable has its value, else 0.
fn byte_of(image: &[u16], state: &[u16], atom: usize) -> u8
    requires { Decodes image.now state.now (length (fdr_of image.now).atoms) × (atom < length (fdr_of image.now).atoms) }
    ensures { result ≡ byte_of state.now (get_or (fdr_of image.now).atoms atom (place 0 0)) }
{
    let variable = fdr_image::atom_variable(image, atom);
    let value = fdr_image::atom_value(image, atom);
    u8::from(literal::wide(state[variable]) == value)
}

// Writes the byte of each atom.
pub fn write(image: &[u16], state: &[u16], target: &mut [u8])
    requires { Decodes image.now state.now (length target.old) }
    ensures { target.new ≡ to_atoms (fdr_of image.now) state.now }
{
    for (a, byte) in target.iter_mut().enumerate() {
        *byte = byte_of(image, state, a);
    }
}
