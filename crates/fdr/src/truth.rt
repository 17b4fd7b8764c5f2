// The truth of literals in a finite-domain state.
ghost use Rattle.std.specs.Prelude.{◌≡◌, ◌<◌, get_or};
ghost use Rattle.definitions.specs.Fdr.{fdr_true_in, fdr_all_true};
ghost use Rattle.definitions.specs.FdrImage.{literals_in};
ghost use Rattle.fdr_image.specs.Walk.{literal};

// The value of a variable, zero for one outside the state.
pub fn value(state: &[u16], variable: usize) -> usize
    ensures { (result ≡ get_or state.now variable 0) × (result < 65536) }
{
    literal::wide(state.get(variable).copied().unwrap_or(0))
}

// Whether a literal is true: its variable has its value, or another if it is negated.
fn is_true(state: &[u16], variable: usize, code: usize) -> bool
    ensures { result ≡ fdr_true_in state.now (literal variable code) }
{
    let same = value(state, variable) == code / 2;
    if code % 2 == 0 { same } else { !same }
}

// Whether all literals of a list are true.
pub fn all_true(state: &[u16], literals: &[u16]) -> bool
    ensures { result ≡ fdr_all_true state.now (literals_in literals.now) }
{
    literals.chunks_exact(2).all(|pair| {
        let variable = literal::wide(pair[0]);
        let code = literal::wide(pair[1]);
        is_true(state, variable, code)
    })
}
