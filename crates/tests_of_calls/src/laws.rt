//! The laws of sets, texts, files and networks, which say what contracts mean and do nothing.

use ae_base::{cube_laws, member_laws, order_laws, set_laws};
use ae_cover::{clash_laws, on_law};
use ae_lex::{words_law, written_lines};
use ae_net::{fault_laws, lead_law, one_run};
use ae_outside::file_laws;
use fault_sim::detects_law;
use redundancy::{evidence_law, found_law};
use vec_text::line_law;

#[test]
fn laws_of_sets(_rt: HostRuntime) {
    cube_laws();
    member_laws();
    order_laws();
    set_laws();
    clash_laws();
    on_law();
}

#[test]
fn laws_of_texts(_rt: HostRuntime) {
    words_law();
    written_lines();
    line_law();
    vec_text::said_law();
    vec_text::said_again();
    file_laws();
    blif_read::said_law();
    blif_read::said_again();
}

#[test]
fn laws_of_networks(_rt: HostRuntime) {
    fault_laws();
    lead_law();
    one_run();
    detects_law();
    evidence_law();
    found_law();
}
