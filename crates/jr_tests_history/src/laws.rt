use jr_desk_totals::{
    clones_are_all, counts_are_few, ends_are_counted, one_clone_changes, one_event_more,
    tests_are_compared, verdicts_are_counted,
};

// A law does nothing when it is called: that each can be called is all that there is to see.
#[test]
fn the_laws_can_be_called() {
    tests_are_compared();
    clones_are_all();
    one_event_more();
    ends_are_counted();
    verdicts_are_counted();
    counts_are_few();
    one_clone_changes();
}
