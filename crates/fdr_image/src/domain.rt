// The domains of the variables, as words: for each the number of its values, and whether none is among them.
ghost use Rattle.std.specs.Prelude.{◌≡◌, true, ◌+◌, ◌*◌, ◌≤◌, ◌<◌, length, get_or};
ghost use Rattle.definitions.specs.Lists.{all};
ghost use Rattle.definitions.specs.Literal.{most_atoms};
ghost use Rattle.definitions.specs.Fdr.{no_domain, atom_values};
ghost use Rattle.definitions.specs.FdrImage.{domains_in, literals_in, is_atom_value, values_right, fdr_literal_right};
ghost use Rattle.fdr_image.specs.Walk.{domains_right};

// The number of values of a variable.
pub fn size(domains: &[u16], variable: usize) -> usize
    requires { variable < length (domains_in domains.now) }
    ensures { (result ≡ (get_or (domains_in domains.now) variable no_domain).values) × (result < 65536) }
{
    literal::wide(domains[2 * variable])
}

// Whether none is a value of a variable: 1 if so.
pub fn none_flag(domains: &[u16], variable: usize) -> usize
    requires { variable < length (domains_in domains.now) }
    ensures { (result ≡ (get_or (domains_in domains.now) variable no_domain).none) × (result < 65536) }
{
    literal::wide(domains[2 * variable + 1])
}

// The number of atom values of a variable: all but none.
pub fn atom_values(domains: &[u16], variable: usize) -> usize
    requires { variable < length (domains_in domains.now) }
    ensures { (result ≡ atom_values (get_or (domains_in domains.now) variable no_domain)) × (result < 65536) }
{
    size(domains, variable).saturating_sub(none_flag(domains, variable))
}

// Whether a value is an atom value of a variable.
pub fn is_atom_value(domains: &[u16], variable: usize, value: usize) -> bool
    ensures { result ≡ is_atom_value (domains_in domains.now) variable value }
{
    variable < domains.len() / 2 && value < atom_values(domains, variable)
}

// Whether the words are the domains of `variables` variables.
pub fn are_domains(domains: &[u16], variables: usize) -> bool
    requires { variables ≤ most_atoms }
    ensures { result ≡ domains_right variables domains.now }
{
    domains.len() == 2 * variables && domains.chunks_exact(2).all(|domain| domain[1] <= 1)
}

// Whether the words are a value for each variable.
pub fn are_values(domains: &[u16], values: &[u16]) -> bool
    ensures { result ≡ values_right (domains_in domains.now) values.now }
{
    values.len() == domains.len() / 2
        && values
            .iter()
            .zip(domains.chunks_exact(2))
            .all(|(value, domain)| *value < domain[0])
}

// Whether the words are literals, each naming an atom value.
pub fn are_literals(domains: &[u16], words: &[u16]) -> bool
    ensures { result ≡ all (fdr_literal_right (domains_in domains.now)) (literals_in words.now) }
{
    words.chunks_exact(2).all(|pair| {
        let variable = literal::wide(pair[0]);
        let code = literal::wide(pair[1]);
        is_atom_value(domains, variable, code / 2)
    })
}
