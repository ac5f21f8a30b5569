//! The sizes of a demo.
ghost use Rattle.std.specs.Prelude.{◌≡◌};
ghost use Rattle.demo_source.specs.Demo as spec;

use ae_base::Form;

/// How many inputs, outputs and rows a demo has.
#[derive(Clone, Copy, Debug)]
pub struct Sizes {
    pub inputs: u32,
    pub outputs: u32,
    pub rows: u32,
}

/// That of a form without cubes.
const LARGE: Sizes = Sizes {
    inputs: 9,
    outputs: 8,
    rows: 64,
};

/// That of a form with cubes, of fewer terms.
const SMALL: Sizes = Sizes {
    inputs: 7,
    outputs: 8,
    rows: 24,
};

pub fn sizes_of(form: Form) -> Sizes
    ensures inputs { result.inputs ≡ spec.demo_inputs form }
    ensures outputs { result.outputs ≡ spec.demo_outputs }
    ensures rows { result.rows ≡ spec.demo_rows form }
{
    if form.features().cubes { SMALL } else { LARGE }
}
