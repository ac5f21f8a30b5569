//! The functions of a network with don't cares.
ghost use Rattle.std.specs.Prelude.{◌≡◌, IfOk, None, length};
ghost use Rattle.ae_base.specs.Mask.{has};
ghost use Rattle.ae_base.specs.Source.{on_set};
ghost use Rattle.ae_net.specs.NetSource.{is_free, specified_by};
ghost use Rattle.ae_net.specs.Out.{out};
ghost use Rattle.fn_store.specs.Functions.{Keeps};
ghost use Rattle.net_fn.specs.Refs.{ShowEach};

use crate::nets::net_values;
use ae_base::Memory;
use ae_net::Source;
use fn_store::{FnRef, FnStore};
use std::alloc::Global;

/// For each output of the source, in order, the function that is 1 exactly where the output is specified On: where the network shows 1
/// and the output is not free. The store has as many inputs as the network. Where memory runs out, `Memory`; the store has kept its
/// functions then too.
pub fn source_values<S: FnStore>(
    alloc: Global,
    store: &mut S,
    source: &Source,
) -> Result<Vec<FnRef>, Memory>
    requires { (S.functions store.old).polarity.n ≡ length source.now.net.inputs }
    ensures count { IfOk result (λ refs. length refs.items ≡ length source.now.net.outputs) }
    ensures shows { IfOk result (λ refs. ShowEach (S.functions store.new) refs.items (on_set (specified_by source.now))) }
    ensures keeps { Keeps (S.functions store.old) (S.functions store.new) }
{
    let values = net_values(alloc, store, source.net(), None)?;
    match &source.free {
        Some(free) => {
            let frees = net_values(alloc, store, free, None)?;
            specified_values(alloc, store, source, &values, &frees)
        }
        None => Ok(values),
    }
}

/// The functions where the outputs are specified On, from those that the network shows and those where the outputs are free.
fn specified_values<S: FnStore>(
    alloc: Global,
    store: &mut S,
    source: &Source,
    values: &[FnRef],
    frees: &[FnRef],
) -> Result<Vec<FnRef>, Memory>
    requires count { length values.now ≡ length frees.now }
    requires values { ShowEach (S.functions store.old) values.now (λ o x. has (out source.now.net None x) o) }
    requires frees { ShowEach (S.functions store.old) frees.now (is_free source.now.free) }
    ensures count { IfOk result (λ refs. length refs.items ≡ length values.now) }
    ensures shows { IfOk result (λ refs. ShowEach (S.functions store.new) refs.items (on_set (specified_by source.now))) }
    ensures keeps { Keeps (S.functions store.old) (S.functions store.new) }
{
    let mut refs = Vec::new(alloc);
    for k in 0..values.len() {
        let kept = store.not(frees[k])?;
        refs.push(store.and(values[k], kept)?)?;
    }
    Ok(refs)
}
