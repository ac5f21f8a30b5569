//! What a vector file holds.

use ae_base::{Cube, Form, Mask, Name, Point, Polarity, Seq, Step};
use std::marker::Model;

/// A vector and its expected response.
#[derive(Drop, Debug)]
pub struct Vector {
    /// The network's inputs that are 1.
    pub point: Point,
    /// The outputs that show 1 there in the network without a fault.
    pub outs: Mask,
}

/// A cube of the ESOP of an output.
#[derive(Drop, Debug)]
pub struct EsopLine {
    /// The output, from 0 on. Its text counts from 1.
    pub output: u32,
    pub cube: Cube,
}

/// A fault site by the names of its network.
#[derive(Drop, Debug)]
pub enum PlaceName {
    /// The stem of the signal with this name.
    Stem(Name),
    /// A pin of the gate with this name, from 1 on.
    Pin(Name, u32),
    /// The output port with this name.
    Port(Name),
}

/// What a file shows of an undetectable fault.
#[derive(Drop, Debug)]
pub enum Shown {
    /// Its evidence tree, of one or more letters. Whether they are a whole tree is not said.
    Tree(Seq<Step>),
    /// The tree is too wide to be written.
    Wide,
}

/// A fault that no vector at all detects, by the name of its site and its stuck value.
#[derive(Drop, Debug)]
pub struct Idle {
    pub place: PlaceName,
    pub value: bool,
    pub shown: Shown,
}

/// What the text of a vector file says: the form, the names of the network's inputs and outputs, the polarity of the source's inputs,
/// the ESOP, the vectors with their responses, and the undetectable faults. Where the form has a control it is one of the network's inputs.
///
/// Its invariant is the rules of the vector text, a format of this project's own (`IsValidVectorFile`): the source has an input, and in
/// a form with a control the network one more; there is an output; there are at most `WRITTEN_LINES` inputs and as many outputs; their names all
/// differ; each cube is over the inputs and of one of the outputs; each vector is over the inputs, and its response over the outputs; a
/// pin's number is from 1 to `PINS`, and a tree has a letter. Cubes and undetectable faults stand only in forms that list them.
#[derive(Drop, Debug)]
pub struct VecFile {
    pub form: Form,
    /// The network's inputs, the control last where there is one.
    pub inputs: Seq<Name>,
    pub outputs: Seq<Name>,
    /// Which literal each input of the source has in the network.
    pub polarity: Polarity,
    /// The cubes of the ESOP.
    pub esop: Seq<EsopLine>,
    pub vectors: Seq<Vector>,
    /// The undetectable faults.
    pub unchanged: Seq<Idle>,
}

impl Model for VecFile {
    ghost use Rattle.vec_text.specs.VectorFile.{VectorFile, IsValidVectorFile};

    ghost Value = { VectorFile };

    ghost view = { λ f. record { form = f.form; inputs = f.inputs; outputs = f.outputs; polarity = f.polarity; esop = f.esop; vectors = f.vectors; unchanged = f.unchanged } };

    ghost invariant = { λ f. IsValidVectorFile (record { form = f.form; inputs = f.inputs; outputs = f.outputs; polarity = f.polarity; esop = f.esop; vectors = f.vectors; unchanged = f.unchanged }) };
}
