//! The laws of functions, of the cascade and of factored networks, which say what contracts mean and do nothing.

use cascade::reddy_law;
use esop::{esop_law, pairs_law, rewriting_law};
use expansion::{even_law, expanded_law};
use factor::factored_law;
use fn_store::{expansion_law, replay_law, store_laws};
use input_tests::input_law;
use polarity::cost_law;
use synth_core::one_answer_law;
use test_gen::{order_law, tests_law};
use universal_tests::universal_law;

#[test]
fn laws_of_functions(_rt: HostRuntime) {
    store_laws();
    replay_law();
    expansion_law();
    expanded_law();
    even_law();
    cost_law();
}

#[test]
fn laws_of_cascades(_rt: HostRuntime) {
    reddy_law();
    universal_law();
    input_law();
    one_answer_law();
}

#[test]
fn laws_of_factored_networks(_rt: HostRuntime) {
    esop_law();
    pairs_law();
    rewriting_law();
    factored_law();
    order_law();
    tests_law();
}
