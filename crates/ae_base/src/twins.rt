//! Names that stand twice.
ghost use Rattle.std.specs.Prelude.{◌≡◌, ◌≢◌, false, AllPairs};
ghost use Rattle.ae_base.specs.Twins as spec;

use crate::name::Name;

fn is_among(name: &Name, names: &[Name]) -> bool
    ensures { result ≡ spec.is_among name.now names.now }
{
    names.iter().any(|other| name == other)
}

/// Whether some name stands twice.
pub fn has_twins(names: &[Name]) -> bool
    ensures twins { result ≡ spec.has_twins names.now }
    ensures distinct { result ≡ false → AllPairs (λ name other. name ≢ other) names.now }
{
    for (i, name) in names.iter().enumerate() {
        if is_among(name, &names[i + 1..]) {
            return true;
        }
    }
    false
}

/// Whether some name stands in both lists.
pub fn share(names: &[Name], others: &[Name]) -> bool
    ensures { result ≡ spec.share names.now others.now }
{
    others.iter().any(|other| is_among(other, names))
}
