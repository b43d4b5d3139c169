// A law does nothing when it is called: that each can be called is all that there is to see.

use jr_laws_bytes::{
    checks_stay_intact, honest_is_good, keeps_last_writes, miscompares_exactly, quiet_play,
    serial_is_clean, serial_is_good, serial_is_quiet,
};
use jr_laws_log::{
    clear_is_clear, ended_flies_no_more, flies_is_flying, flying_is_started, log_grows,
    log_is_by_started, log_is_intact, log_is_intact_of_draws, logged_is_intact, next_flies,
    next_is_free, others_fly_on, unended_is_unlogged,
};
use jr_laws_quiet::{checks_stay_last, last_is_latest, quiet_report, write_waits};
use jr_laws_races::{raced_is_written_over, written_over_has_raced};
use jr_laws_rounds::{
    choice_by_standing, clone_finished_by_standing, closed_at_end, finished_by_standing,
    kept_is_current, left_are_unsettled, left_in_pass, open_is_latest, taken_up_is_latest,
    waits_under_way,
};
use jr_laws_steps::{
    appends_one, choice_is_least, idle_is_complete, no_block_twice, nothing_without_choice,
    serial_ends, serial_is_complete, started_are_drawn, started_are_few, started_fit, started_once,
    taken_is_all,
};

#[test]
fn the_steps_laws_can_be_called() {
    started_are_few();
    taken_is_all();
    appends_one();
    serial_ends();
    started_are_drawn();
    started_fit();
    started_once();
    no_block_twice();
    idle_is_complete();
    serial_is_complete();
    choice_is_least();
    nothing_without_choice();
}

#[test]
fn the_laws_can_be_called() {
    serial_is_clean();
    serial_is_good();
    serial_is_quiet();
    honest_is_good();
    miscompares_exactly();
    checks_stay_intact();
    quiet_play();
    keeps_last_writes();
}

#[test]
fn the_quiet_laws_can_be_called() {
    write_waits();
    last_is_latest();
    checks_stay_last();
    quiet_report();
}

#[test]
fn the_log_laws_can_be_called() {
    flying_is_started();
    flies_is_flying();
    clear_is_clear();
    next_flies();
    next_is_free();
    ended_flies_no_more();
    others_fly_on();
    log_is_intact();
    log_is_intact_of_draws();
    logged_is_intact();
    log_grows();
    unended_is_unlogged();
    log_is_by_started();
}

#[test]
fn the_round_laws_can_be_called() {
    waits_under_way();
    closed_at_end();
    left_in_pass();
    left_are_unsettled();
    kept_is_current();
    choice_by_standing();
    finished_by_standing();
    clone_finished_by_standing();
    open_is_latest();
    taken_up_is_latest();
}

#[test]
fn the_race_laws_can_be_called() {
    raced_is_written_over();
    written_over_has_raced();
}
