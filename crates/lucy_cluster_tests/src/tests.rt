//! The rows on threads.

use crate::rows::{
    ALL_DOUBLED, ALL_LOST, PLAIN, counted, deep, first_row, meeting, one_thread, still,
};
use crate::runs::{no_run, run_counts, run_meets, run_moves};

#[test]
fn a_call_leaves_its_segment(rt: HostRuntime) {
    assert_eq!(rt; first_row(&rt, rt.alloc(), PLAIN), Some([true; 6]));
}

#[test]
fn a_call_leaves_its_segment_where_all_is_lost(rt: HostRuntime) {
    assert_eq!(rt; first_row(&rt, rt.alloc(), ALL_LOST), Some([true; 6]));
}

#[test]
fn a_call_leaves_its_segment_where_all_is_doubled(rt: HostRuntime) {
    assert_eq!(rt; first_row(&rt, rt.alloc(), ALL_DOUBLED), Some([true; 6]));
}

#[test]
fn what_was_sent_is_merged(rt: HostRuntime) {
    assert_eq!(rt; one_thread(&rt, rt.alloc()), Some([true; 4]));
}

#[test]
fn calls_move_until_the_bound(rt: HostRuntime) {
    assert_eq!(rt; still(&rt, rt.alloc()), Some([true; 5]));
}

#[test]
fn deep_expressions_are_folded(rt: HostRuntime) {
    assert_eq!(rt; deep(&rt, rt.alloc()), Some([true; 3]));
}

#[test]
fn points_are_passed_as_often_as_records_say(rt: HostRuntime) {
    assert_eq!(rt; counted(&rt, rt.alloc()), Some([true; 3]));
}

#[test]
fn replicas_work_at_the_same_time(rt: HostRuntime) {
    assert_eq!(rt; meeting(&rt, rt.alloc()), Some([true; 3]));
}

#[test]
fn a_run_is_of_threads(rt: HostRuntime) {
    assert_eq!(rt; run_meets(&rt, rt.alloc()), Some([true; 2]));
}

#[test]
fn a_run_passes_its_points(rt: HostRuntime) {
    assert_eq!(rt; run_counts(&rt, rt.alloc()), Some([true; 3]));
}

#[test]
fn a_run_moves_until_the_bound(rt: HostRuntime) {
    assert_eq!(rt; run_moves(&rt, rt.alloc()), Some([true; 3]));
}

#[test]
fn other_words_ask_for_no_run(rt: HostRuntime) {
    assert_eq!(rt; no_run(&rt, rt.alloc()), Some([true; 3]));
}
