//! Texts that tests of several crates read or compare with.

/// The OR `n1` and the NAND `n2` of two inputs, the AND `s` of both, and the complement `c` of the NAND.
pub static HALF_ADDER: &[u8] =
    b".model adder   # half adder\n.inputs a \\\nb\n.outputs s c\n.names n1 n2 s\n11 1\n.names a b n1\n00 0\n.names a b n2\n11 0\n.names n2 c\n0 1\n";

/// The network that is written for the AND of two inputs.
pub static AND_NET: &[u8] =
    b".model andexor\n.inputs x1 x2 _c\n.outputs f1\n.names x1 x2 _t1\n11 1\n.names _c _t1 f1\n10 1\n01 1\n.end\n";

/// The vectors that are written for it.
pub const AND_VECTORS: &[u8] =
    b"andexor-vectors 1\nform reddy\ninputs x1 x2 _c\noutputs f1\npolarity 11\nvector 000 0\nvector 110 1\nvector 001 1\nvector 111 0\nvector 010 0\nvector 100 0\nend\n";

/// The OR of two inputs, which may have any value where both are 1, and the first input.
pub static DONT_CARES: &[u8] =
    b".model m\n.inputs a b\n.outputs f g\n.names a b f\n1- 1\n-1 1\n.names a g\n1 1\n.exdc\n.names a b f\n11 1\n.end\n";
